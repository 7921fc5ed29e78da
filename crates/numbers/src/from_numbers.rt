// What numbers say, if they say it.
ghost use Rattle.std.specs.Prelude.{◌≡◌, ◌||◌, cond, eqb};
ghost use Rattle.codes.specs.Lists.{is_number};
ghost use Rattle.numbers.specs.Numbers.{has_no_part, are_lasting, are_part, are_cap, lasting_from, part_from, parts_from, cap_from, sender_from, name_from};
ghost use Rattle.numbers.specs.Numbers.{is_flag, are_warn, warn_from};

use codes::Code;
use codes::texts::is_number;
use sheet::{CapFacts, Lasting, Part, Parts, Span, WarnFacts};

// The code that a number stands for, if its list has the number.
fn code_from<C: Code>(k: u64) -> Option<C>
    ensures { result ≡ cond (is_number C.LIST k) (Some (C.value_at k)) None }
{
    let k = k as usize;
    if is_number(C::LIST, k) {
        return Some(C::from_number(k));
    }
    None
}

// Whether numbers say that there is no part, and nothing of one.
fn has_no_part(n: &[u64; 15]) -> bool
    ensures { result ≡ has_no_part n.now }
{
    (n[4] == 0) & (n[5] == 0) & (n[6] == 0) & (n[7] == 0) & (n[8] == 0) & (n[9] == 0) & (n[10] == 0)
}

// The lasting time that two numbers stand for: one that isn't stated is 0.
fn lasting_from(stated: u64, seconds: u64) -> Option<Lasting>
    ensures { result ≡ cond (are_lasting stated seconds) (Some (lasting_from stated seconds)) None }
{
    match (stated, seconds) {
        (0, 0) => Some(None),
        (1, _) => Some(Some(u32::try_from(seconds).ok()?)),
        _ => None,
    }
}

// The part that numbers stand for.
#[tactic(auto, unfolding(crate::specs::Numbers::are_part, crate::specs::Numbers::part_from))]
fn part_from(n: &[u64; 15]) -> Option<Part>
    ensures { result ≡ cond (are_part n.now) (Some (part_from n.now)) None }
{
    Some(Part {
        number: u8::try_from(n[4]).ok()?,
        total: u8::try_from(n[5]).ok()?,
        urgency: code_from(n[6])?,
        severity: code_from(n[7])?,
        certainty: code_from(n[8])?,
        lasting: lasting_from(n[9], n[10])?,
    })
}

// The part of a sheet, or that it has none.
fn parts_from(n: &[u64; 15]) -> Option<Parts>
    ensures { result ≡ cond (has_no_part n.now || are_part n.now) (Some (parts_from n.now)) None }
{
    if has_no_part(n) {
        return Some(None);
    }
    part_from(n).map(Some)
}

// The CAP sheet that numbers stand for, but its sender and name.
#[tactic(auto, unfolding(crate::specs::Numbers::are_cap, crate::specs::Numbers::cap_from))]
pub fn cap_from(n: &[u64; 15]) -> Option<CapFacts>
    ensures { result ≡ cond (are_cap n.now) (Some (cap_from n.now)) None }
{
    if n[0] != 1 {
        return None;
    }
    Some(CapFacts {
        message: code_from(n[1])?,
        status: code_from(n[2])?,
        scope: code_from(n[3])?,
        parts: parts_from(n)?,
    })
}

pub fn sender_from(n: &[u64; 15]) -> Span
    ensures { result ≡ sender_from n.now }
{
    Span {
        start: n[11] as usize,
        len: n[12] as usize,
    }
}

pub fn name_from(n: &[u64; 15]) -> Span
    ensures { result ≡ name_from n.now }
{
    Span {
        start: n[13] as usize,
        len: n[14] as usize,
    }
}

// Whether a flag is set: its number is 1, or 0.
fn flag_from(k: u64) -> Option<bool>
    ensures { result ≡ cond (is_flag k) (Some (eqb k 1)) None }
{
    match k {
        0 => Some(false),
        1 => Some(true),
        _ => None,
    }
}

// The WARN sheet that numbers stand for.
#[tactic(auto, unfolding(crate::specs::Numbers::are_warn, crate::specs::Numbers::warn_from))]
pub fn warn_from(n: &[u64; 15]) -> Option<WarnFacts>
    ensures { result ≡ cond (are_warn n.now) (Some (warn_from n.now)) None }
{
    if n[0] != 2 {
        return None;
    }
    Some(WarnFacts {
        urgent: flag_from(n[1])?,
        update: flag_from(n[2])?,
        cancel: flag_from(n[3])?,
        test: flag_from(n[4])?,
        event: u32::try_from(n[5]).ok()?,
        number: u16::try_from(n[6]).ok()?,
        origin: u32::try_from(n[7]).ok()?,
        lasting: u32::try_from(n[8]).ok()?,
        hazard: u8::try_from(n[9]).ok()?,
        kind: u8::try_from(n[10]).ok()?,
        urgency: u8::try_from(n[11]).ok()?,
        severity: u8::try_from(n[12]).ok()?,
        certainty: u8::try_from(n[13]).ok()?,
        response: u8::try_from(n[14]).ok()?,
    })
}
