// The sentence of a CAP sheet.
ghost use Rattle.std.specs.Prelude.{◌++◌};
ghost use Rattle.text.specs.Ascii.{ascii};
ghost use Rattle.buffer.specs.Cursor.{Put};
ghost use Rattle.sheet.specs.Sentence.{plain, lasting_text, part_text, parts_text, cap_text};

use crate::fields::{Number, Seconds, Small, Text, put_field};
use buffer::put;
use sheet::{CapFacts, Lasting, Part, Parts};

// How long a part lasts.
fn put_lasting(dst: &mut [u8], at: usize, lasting: Lasting) -> usize
    ensures { Put dst.old at (ascii ", lasts" ++ lasting_text plain lasting) dst.new result }
{
    match lasting {
        None => put(dst, at, b", lasts no stated time"),
        Some(s) => put_field(dst, at, b", lasts", Seconds(s)),
    }
}

// A part by its number, its codes and how long it lasts.
fn put_part(dst: &mut [u8], at: usize, p: Part) -> usize
    ensures { Put dst.old at (part_text plain p) dst.new result }
{
    let a = put_field(dst, at, b", part", Number(p.number as u32));
    let b = put_field(dst, a, b" of", Number(p.total as u32));
    let c = put_field(dst, b, b", ", Small(p.urgency));
    let d = put_field(dst, c, b", ", Small(p.severity));
    let e = put_field(dst, d, b", ", Small(p.certainty));
    put_lasting(dst, e, p.lasting)
}

#[tactic(auto, using(buffer::proofs::Chain::put_append, buffer::proofs::Chain::put_none), unfolding(sheet::specs::Sentence::parts_text))]
fn put_parts(dst: &mut [u8], at: usize, parts: Parts) -> usize
    ensures { Put dst.old at (parts_text plain parts) dst.new result }
{
    match parts {
        None => put(dst, at, b", no parts"),
        Some(p) => put_part(dst, at, p),
    }
}

// Writes as much of the whole sentence as fits into dst from the offset at on, and gives the next start.
pub fn put_cap(dst: &mut [u8], at: usize, facts: CapFacts, sender: &[u8], name: &[u8]) -> usize
    ensures { Put dst.old at (cap_text plain facts sender.now name.now) dst.new result }
{
    let a = put_field(dst, at, b"cap ", Small(facts.message));
    let b = put_field(dst, a, b", ", Small(facts.status));
    let c = put_field(dst, b, b", ", Small(facts.scope));
    let d = put_field(dst, c, b", from ", Text(sender));
    let e = put_field(dst, d, b", name ", Text(name));
    let f = put_parts(dst, e, facts.parts);
    put(dst, f, b".\n")
}
