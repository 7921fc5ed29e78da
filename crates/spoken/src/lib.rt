// Numbers and durations in words, written into a lent buffer and read from a text.

#![tactic(auto)]

pub mod number; // number.rt: numbers in words
pub mod duration; // duration.rt: durations in words
mod dictionary; // dictionary.rt: the words and their codes
mod reading; // reading.rt: numbers and durations out of their words

ghost use Rattle.std.specs.Prelude.{◌≡◌, drop};
ghost use Rattle.buffer.specs.Writing.{write_text, text_answer, after_text};
ghost use Rattle.words.specs.Words.{words};
ghost use Rattle.words.specs.Duration.{duration};
ghost use Rattle.words.specs.Reading.{number_at, duration_at};

use crate::duration::put_duration;
use crate::number::put_number;
use crate::reading::{duration_at, number_at};
use buffer::{NoRoom, write_text};
use text::{first, skip};
use words::Quantity;

// The longest number's words, each after a space.
const LONGEST_NUMBER: usize = 115;

// The longest duration's.
const LONGEST_DURATION: usize = 116;

// Writes a number in words from start on.
pub fn write_number(buffer: &mut [u8], start: usize, n: u32) -> Result<usize, NoRoom>
    ensures { (text_answer result ≡ write_text buffer.old start (words n)) × (buffer.new ≡ after_text buffer.old start (words n)) }
{
    let mut own = [0u8; LONGEST_NUMBER];
    let k = put_number(&mut own, 0, n);
    write_text(buffer, start, skip(first(&own, k), 1))
}

// Writes a number of seconds in words from start on: nothing for 0 seconds.
pub fn write_duration(buffer: &mut [u8], start: usize, seconds: u32) -> Result<usize, NoRoom>
    ensures { (text_answer result ≡ write_text buffer.old start (duration seconds)) × (buffer.new ≡ after_text buffer.old start (duration seconds)) }
{
    let mut own = [0u8; LONGEST_DURATION];
    let k = put_duration(&mut own, 0, seconds);
    write_text(buffer, start, skip(first(&own, k), 1))
}

// Reads the number whose words, each after a space, stand in the text at an offset.
pub fn read_number(text: &[u8], at: usize) -> Quantity
    ensures { result ≡ number_at at (drop at text.now) }
{
    number_at(text, at)
}

// Reads the number of seconds whose words, each after a space, stand in the text at an offset.
pub fn read_duration(text: &[u8], at: usize) -> Quantity
    ensures { result ≡ duration_at at (drop at text.now) }
{
    duration_at(text, at)
}
