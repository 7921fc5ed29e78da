// CAP sentences, read loosely: nothing is checked.
ghost use Rattle.std.specs.Prelude.{◌≡◌, ◌+◌, ◌≤◌, ◌<◌, length, drop};
ghost use Rattle.sheet.specs.Reading.{lasting_of, part_of, parts_of, span_at};
ghost use Rattle.reader.specs.Pieces.{cap_at};

use crate::scan::{after, byte_after, code_after, split_word};
use sheet::{CapFacts, Found, Lasting, Part, Parts, Span};
use spoken::read_duration;

// How long a part lasts, from after "lasts" on.
#[tactic(auto, unfolding(sheet::specs::Reading::lasting_of))]
fn lasting_of(t: &[u8]) -> Lasting
    ensures { result ≡ lasting_of t.now }
{
    if text::starts_with(t, b" no ") {
        return None;
    }
    Some(read_duration(t, 0).value)
}

// A part, from ", part" on.
fn part_of(t: &[u8]) -> Part
    ensures { result ≡ part_of t.now }
{
    let (number, t) = byte_after(t, b", part");
    let (total, t) = byte_after(t, b" of");
    let (urgency, t) = code_after(t, b", ");
    let (severity, t) = code_after(t, b", ");
    let (certainty, t) = code_after(t, b", ");
    Part {
        number,
        total,
        urgency,
        severity,
        certainty,
        lasting: lasting_of(after(t, b", lasts")),
    }
}

// The part that a sentence tells of, from after the name on.
#[tactic(auto, unfolding(sheet::specs::Reading::parts_of))]
fn parts_of(t: &[u8]) -> Parts
    ensures { result ≡ parts_of t.now }
{
    if text::starts_with(t, b", part") {
        return Some(part_of(t));
    }
    None
}

// The leading word of the rest of a text, which stands at an offset.
fn span_at(at: usize, t: &[u8], rest: &[u8]) -> Span
    requires { (length rest.now ≤ length t.now) × (at + length t.now < 0x1_0000_0000_0000_0000) }
    ensures { result ≡ span_at at t.now rest.now }
{
    Span {
        start: at + (t.len() - rest.len()),
        len: split_word(rest).0.len(),
    }
}

// A CAP sentence from its start: its facts, and where its sender and its name stand.
pub fn cap_at(t: &[u8], at: usize) -> Found
    ensures { result ≡ cap_at at (drop at t.now) }
{
    let start = text::skip(t, at);
    let (message, t) = code_after(start, b"cap ");
    let (status, t) = code_after(t, b", ");
    let (scope, t) = code_after(t, b", ");
    let sender = after(t, b", from ");
    let (_, t) = split_word(sender);
    let name = after(t, b", name ");
    let (_, t) = split_word(name);
    let facts = CapFacts {
        message,
        status,
        scope,
        parts: parts_of(t),
    };
    Found::Cap(facts, span_at(at, start, sender), span_at(at, start, name))
}
