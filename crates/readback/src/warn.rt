// The sentence of a WARN sheet.
ghost use Rattle.buffer.specs.Cursor.{Put};
ghost use Rattle.sheet.specs.Sentence.{plain, flag, flags_text, origin_text, hazard_text, warn_text};

use crate::fields::{Number, Seconds, put_field};
use buffer::put;
use sheet::WarnFacts;

// The text of a flag that is set; nothing where it is not.
#[tactic(auto, using(buffer::proofs::Chain::put_append, buffer::proofs::Chain::put_none), unfolding(sheet::specs::Sentence::flag))]
fn put_flag(dst: &mut [u8], at: usize, set: bool, text: &[u8]) -> usize
    ensures { Put dst.old at (flag plain set text.now) dst.new result }
{
    if set {
        return put(dst, at, text);
    }
    at
}

// The set flags in bit order.
#[tactic(auto, using(buffer::proofs::Chain::put_append, buffer::proofs::Chain::put_none), unfolding(sheet::specs::Sentence::flags_text))]
fn put_flags(dst: &mut [u8], at: usize, facts: WarnFacts) -> usize
    ensures { Put dst.old at (flags_text plain facts) dst.new result }
{
    let a = put_flag(dst, at, facts.urgent, b" urgent");
    let b = put_flag(dst, a, facts.update, b" update");
    let c = put_flag(dst, b, facts.cancel, b" cancel");
    put_flag(dst, c, facts.test, b" test")
}

// The event, its number and origin, and how long it lasts.
fn put_origin(dst: &mut [u8], at: usize, facts: WarnFacts) -> usize
    ensures { Put dst.old at (origin_text plain facts) dst.new result }
{
    let a = put_field(dst, at, b", event", Number(facts.event));
    let b = put_field(dst, a, b", number", Number(facts.number as u32));
    let c = put_field(dst, b, b", origin", Number(facts.origin));
    put_field(dst, c, b", lasts", Seconds(facts.lasting))
}

// The hazard and its codes.
fn put_hazard(dst: &mut [u8], at: usize, facts: WarnFacts) -> usize
    ensures { Put dst.old at (hazard_text plain facts) dst.new result }
{
    let a = put_field(dst, at, b", hazard", Number(facts.hazard as u32));
    let b = put_field(dst, a, b", kind", Number(facts.kind as u32));
    let c = put_field(dst, b, b", urgency", Number(facts.urgency as u32));
    let d = put_field(dst, c, b", severity", Number(facts.severity as u32));
    let e = put_field(dst, d, b", certainty", Number(facts.certainty as u32));
    put_field(dst, e, b", response", Number(facts.response as u32))
}

// Writes as much of the whole sentence as fits into dst from the offset at on, and gives the next start.
pub fn put_warn(dst: &mut [u8], at: usize, facts: WarnFacts) -> usize
    ensures { Put dst.old at (warn_text plain facts) dst.new result }
{
    let a = put(dst, at, b"warn alert");
    let b = put_flags(dst, a, facts);
    let c = put_origin(dst, b, facts);
    let d = put_hazard(dst, c, facts);
    put(dst, d, b".\n")
}
