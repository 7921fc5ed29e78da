// Durations in words: days, hours, minutes and seconds, each count with its unit.
ghost use Rattle.std.specs.Prelude.{◌<◌};
ghost use Rattle.buffer.specs.Cursor.{Put};
ghost use Rattle.words.specs.Words.{spaced};
ghost use Rattle.words.specs.Duration.{counted, lasting};

use crate::dictionary::{DAY, DAYS, HOUR, HOURS, MINUTE, MINUTES, SECOND, SECONDS, put_word};
use crate::number::put_number;

// A count and its unit, the singular for a count of one; nothing where the count is 0.
#[tactic(auto, using(words::proofs::Cases::counted_none, words::proofs::Cases::counted_one, words::proofs::Cases::counted_many, buffer::proofs::Chain::put_none, buffer::proofs::Chain::put_then))]
fn put_counted(dst: &mut [u8], at: usize, n: u32, one: usize, many: usize) -> usize
    ensures { Put dst.old at (spaced (counted n one many)) dst.new result }
{
    if n == 0 {
        return at;
    }
    let a = put_number(dst, at, n);
    if n == 1 {
        return put_word(dst, a, one);
    }
    put_word(dst, a, many)
}

// Writes as much of a number of seconds in words as fits into dst from `at` on, nothing for 0 seconds, and gives the next start.
#[tactic(auto, using(words::proofs::Cases::lasting_parts, buffer::proofs::Chain::put_then))]
pub fn put_duration(dst: &mut [u8], at: usize, s: u32) -> usize
    ensures { Put dst.old at (lasting s) dst.new result }
{
    let a = put_counted(dst, at, s / 86_400, DAY, DAYS);
    let b = put_counted(dst, a, s / 3_600 % 24, HOUR, HOURS);
    let c = put_counted(dst, b, s / 60 % 60, MINUTE, MINUTES);
    put_counted(dst, c, s % 60, SECOND, SECONDS)
}
