// The limits of a time: a day that exists, a clock's reading, an offset of at most 14:00.
ghost use Rattle.std.specs.Prelude.{◌≡◌, true, false, MatchOption};
ghost use Rattle.time.specs.Time.{is_date, is_day_end, is_clock, is_offset, is_stamp};

use crate::{Existing, Stamp, calendar};

// The largest offset, in minutes.
const MOST_OFFSET: u64 = 60 * 14;

// Whether a day exists.
fn is_date(y: u64, m: u64, d: u64) -> bool
    ensures { result ≡ is_date y m d }
{
    (1..=9999).contains(&y) && (1..=12).contains(&m) && 1 <= d && d <= calendar::month_days(y, m)
}

// Whether this is the end of a day, written as hour 24.
fn is_day_end(h: u64, m: u64, s: u64) -> bool
    ensures { result ≡ is_day_end h m s }
{
    (h, m, s) == (24, 0, 0)
}

// Whether a clock can show this.
fn is_clock(h: u64, m: u64, s: u64) -> bool
    ensures { result ≡ is_clock h m s }
{
    h <= 23 && m <= 59 && s <= 59 || is_day_end(h, m, s)
}

// Whether an offset is at most 14:00.
fn is_offset(h: u64, m: u64) -> bool
    ensures { result ≡ is_offset h m }
{
    h <= 14 && m <= 59 && 60 * h + m <= MOST_OFFSET
}

// Whether a stamp names a time that exists.
#[tactic(auto, unfolding(crate::specs::Time::is_stamp))]
fn is_stamp(t: Stamp) -> bool
    ensures { result ≡ is_stamp t }
{
    is_date(t.year, t.month, t.day)
        && is_clock(t.hour, t.minute, t.second)
        && is_offset(t.offset_hour, t.offset_minute)
}

// A stamp, where it names a time that exists.
pub fn existing(t: Stamp) -> Option<Existing>
    ensures { MatchOption result (is_stamp t ≡ false) (λ e. (is_stamp t ≡ true) × (e.stamp ≡ t)) }
{
    if is_stamp(t) {
        Some(Existing { stamp: t })
    } else {
        None
    }
}
