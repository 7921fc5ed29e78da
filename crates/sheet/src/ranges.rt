// Whether a sheet's facts keep to their ranges.
ghost use Rattle.std.specs.Prelude.{◌≡◌};
ghost use Rattle.words.specs.Duration.{is_lasting};
ghost use Rattle.sheet.specs.Sheet.{cap, warn, is_name_byte, all_name_bytes, holds_cdata_end, is_name, is_lasting_time, is_parts, in_range};

use crate::{CapFacts, Lasting, Part, Parts, WarnFacts};

// The longest lasting time, in seconds: 365 days.
const LONGEST: u64 = 31_536_000;

// Whether sender and name may hold a byte.
pub fn is_name_byte(b: u8) -> bool
    ensures { result ≡ is_name_byte b }
{
    0x20 < b && !matches!(b, b',' | b'<' | b'&')
}

// Whether sender and name may hold all bytes of a text.
#[tactic(auto, unfolding(crate::specs::Sheet::all_name_bytes))]
pub fn all_name_bytes(s: &[u8]) -> bool
    ensures { result ≡ all_name_bytes s.now }
{
    s.iter().all(|b| is_name_byte(*b))
}

// Whether "]]>" stands somewhere in a text.
#[tactic(auto, using(crate::proofs::Names::cdata_none, crate::proofs::Names::cdata_here, crate::proofs::Names::cdata_later))]
fn holds_cdata_end(s: &[u8]) -> bool
    ensures { result ≡ holds_cdata_end s.now }
{
    for i in 0..s.len() {
        if text::starts_at(s, i, b"]]>") {
            return true;
        }
    }
    false
}

// Whether a text can be a sender or a name.
#[tactic(auto, unfolding(crate::specs::Sheet::is_name))]
pub fn is_name(s: &[u8]) -> bool
    ensures { result ≡ is_name s.now }
{
    (1..=128).contains(&s.len()) && all_name_bytes(s) && !holds_cdata_end(s)
}

// Whether a number of seconds is a lasting time.
pub fn is_lasting(seconds: u64) -> bool
    ensures { result ≡ is_lasting seconds }
{
    (1..=LONGEST).contains(&seconds)
}

fn is_lasting_time(lasting: Lasting) -> bool
    ensures { result ≡ is_lasting_time lasting }
{
    lasting.is_none_or(|seconds| is_lasting(seconds as u64))
}

#[tactic(auto, unfolding(crate::specs::Sheet::is_parts))]
fn is_part(p: Part) -> bool
    ensures { result ≡ is_parts (Some p) }
{
    (1..=p.total).contains(&p.number) && p.total <= 16 && is_lasting_time(p.lasting)
}

#[tactic(auto, unfolding(crate::specs::Sheet::is_parts))]
fn is_parts(parts: Parts) -> bool
    ensures { result ≡ is_parts parts }
{
    parts.is_none_or(is_part)
}

// Whether a CAP sheet keeps to the ranges.
#[tactic(auto, unfolding(crate::specs::Sheet::in_range))]
pub fn is_cap(facts: CapFacts, sender: &[u8], name: &[u8]) -> bool
    ensures { result ≡ in_range (cap facts sender.now name.now) }
{
    is_parts(facts.parts) && is_name(sender) && is_name(name)
}

// Whether a WARN sheet keeps to the ranges: all its fields but the lasting time keep to them by their types.
#[tactic(auto, using(crate::proofs::Widths::warn_in_range))]
pub fn is_warn(facts: WarnFacts) -> bool
    ensures { result ≡ in_range (warn facts) }
{
    is_lasting(facts.lasting as u64)
}
