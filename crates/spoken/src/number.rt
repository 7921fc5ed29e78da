// Numbers in words, each word after a space.
ghost use Rattle.std.specs.Prelude.{◌<◌};
ghost use Rattle.buffer.specs.Cursor.{Put};
ghost use Rattle.words.specs.Words.{spaced, ones, below_hundred, below_thousand, group, said};

use crate::dictionary::{BILLION, HUNDRED, MILLION, TENS, THOUSAND, put_word};

// A number below 20; nothing where it is 0.
#[tactic(auto, using(words::proofs::Cases::ones_none, words::proofs::Cases::ones_some, buffer::proofs::Chain::put_none))]
fn put_ones(dst: &mut [u8], at: usize, n: usize) -> usize
    ensures { Put dst.old at (spaced (ones n)) dst.new result }
{
    if n == 0 {
        return at;
    }
    put_word(dst, at, n)
}

// A number below 100; nothing where it is 0.
#[tactic(auto, using(words::proofs::Cases::hundred_low, words::proofs::Cases::hundred_high, buffer::proofs::Chain::put_then))]
fn put_below_hundred(dst: &mut [u8], at: usize, n: usize) -> usize
    ensures { Put dst.old at (spaced (below_hundred n)) dst.new result }
{
    if n < 20 {
        return put_ones(dst, at, n);
    }
    let a = put_word(dst, at, TENS + n / 10);
    put_ones(dst, a, n % 10)
}

// A number below 1,000; nothing where it is 0.
#[tactic(auto, using(words::proofs::Cases::thousand_low, words::proofs::Cases::thousand_high, buffer::proofs::Chain::put_then))]
fn put_below_thousand(dst: &mut [u8], at: usize, n: usize) -> usize
    ensures { Put dst.old at (spaced (below_thousand n)) dst.new result }
{
    if n / 100 == 0 {
        return put_below_hundred(dst, at, n % 100);
    }
    let a = put_word(dst, at, n / 100);
    let b = put_word(dst, a, HUNDRED);
    put_below_hundred(dst, b, n % 100)
}

// A thousands group with its word; nothing where it is empty.
#[tactic(auto, using(words::proofs::Cases::group_none, words::proofs::Cases::group_some, buffer::proofs::Chain::put_none, buffer::proofs::Chain::put_then))]
fn put_group(dst: &mut [u8], at: usize, count: usize, unit: usize) -> usize
    ensures { Put dst.old at (spaced (group count unit)) dst.new result }
{
    if count == 0 {
        return at;
    }
    let a = put_below_thousand(dst, at, count);
    put_word(dst, a, unit)
}

// Writes as much of a number in words as fits into dst from `at` on, and gives the next start.
#[tactic(auto, using(words::proofs::Cases::said_zero, words::proofs::Cases::said_some, buffer::proofs::Chain::put_then))]
pub fn put_number(dst: &mut [u8], at: usize, n: u32) -> usize
    ensures { Put dst.old at (said n) dst.new result }
{
    if n == 0 {
        return put_word(dst, at, 0);
    }
    let x = n as usize;
    let a = put_group(dst, at, x / 1_000_000_000, BILLION);
    let b = put_group(dst, a, x / 1_000_000 % 1_000, MILLION);
    let c = put_group(dst, b, x / 1_000 % 1_000, THOUSAND);
    put_below_thousand(dst, c, x % 1_000)
}
