// Numbers in digits, and the line of a refusal.
ghost use Rattle.std.specs.Prelude.{[], ◌∷◌};
ghost use Rattle.buffer.specs.Cursor.{Put, PutAll};
ghost use Rattle.report.specs.Lines.{in_digits, refusal_line};

use buffer::put;

// Writes as much of a number in digits as fits into dst from the offset at on, and gives the next start.
#[tactic(auto, using(crate::proofs::Decimal::in_digits_decimal))]
fn put_digits(dst: &mut [u8], at: usize, n: u64) -> usize
    ensures { Put dst.old at (in_digits n) dst.new result }
{
    put(dst, at, itoa::Buffer::new().format(n).as_bytes())
}

// The same of a number after the text in front of it.
fn put_numbered(dst: &mut [u8], at: usize, before: &[u8], n: u64) -> usize
    ensures { PutAll dst.old at (before.now ∷ in_digits n ∷ []) dst.new result }
{
    let a = put(dst, at, before);
    put_digits(dst, a, n)
}

// The line of a refusal.
pub fn put_refusal(dst: &mut [u8], at: usize, number: u8, offset: usize) -> usize
    ensures { Put dst.old at (refusal_line number offset) dst.new result }
{
    let a = put_numbered(dst, at, b"refused ", number as u64);
    let b = put_numbered(dst, a, b" at ", offset as u64);
    put(dst, b, b"\n")
}
