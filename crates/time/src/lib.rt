// CAP times: a text to the instant it names, in whole seconds from 1970.

#![tactic(auto)]

mod calendar;
mod form;
mod instant;
mod limits;

ghost use Rattle.std.specs.Prelude.{◌≡◌};
ghost use Rattle.time.specs.Limits.{Stamped};
ghost use Rattle.time.specs.Time.{stamp_time, time_of, time_answer};

// How many bytes the form of a time has.
const FORM_LENGTH: usize = 25;

// A time as it is written: the calendar, the clock, and how far the clock is from UTC, to the west or the east.
#[derive(Clone, Copy)]
pub struct Stamp {
    pub year: u64,
    pub month: u64,
    pub day: u64,
    pub hour: u64,
    pub minute: u64,
    pub second: u64,
    pub west: bool,
    pub offset_hour: u64,
    pub offset_minute: u64,
}

// A stamp that names a time that exists; so its numbers are small.
#[derive(Clone, Copy)]
pub struct Existing {
    pub stamp: Stamp,
    ghost within: { Stamped stamp },
}

// The instant that a text of the form's length names.
#[tactic(auto, unfolding(crate::specs::Time::stamp_time))]
fn stamp_time(text: &[u8; FORM_LENGTH]) -> Option<i64>
    ensures { time_answer result ≡ stamp_time text.now }
{
    if !form::has_form(text) {
        return None;
    }
    let time = limits::existing(form::stamp_of(text))?;
    Some(time.instant())
}

// The instant that a text names: white space, the form's bytes, white space.
pub fn read_time(text: &[u8]) -> Option<i64>
    ensures { time_answer result ≡ time_of text.now }
{
    let start = text::skip_space(text, 0);
    let (time, rest) = text::skip(text, start).split_first_chunk::<FORM_LENGTH>()?;
    if text::skip_space(rest, 0) != rest.len() {
        return None;
    }
    stamp_time(time)
}
