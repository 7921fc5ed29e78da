// The sheet of a part, drawn from its texts.
ghost use Rattle.std.specs.Prelude.{◌≡◌, ◌≤◌};
ghost use Rattle.codes.specs.Lists.{code_of};
ghost use Rattle.time.specs.Time.{time_of, time_answer};
ghost use Rattle.sheet.specs.Reading.{span_in};
ghost use Rattle.parts.specs.Sheets.{lasts_of, lasts_answer, part_facts, found_of, sheet_with, sheet_of_part, sheet_answer};
ghost use Rattle.parts.specs.Gathering.{alert_span, part_span};

use crate::texts::Facts;
use crate::{CapSheet, SheetError, lasting, look_up};
use codes::Code;
use codes::texts::code_of;
use schema::class;
use sheet::{CapFacts, Lasting, Part, Parts, Span, span_in};

// The time that the text at a span says.
fn time_in(s: &[u8], span: Span) -> Option<i64>
    ensures { time_answer result ≡ time_of (span_in s.now span) }
{
    time::read_time(span_in(s, span))
}

// The code of a list that the text at a span says.
fn code_in<C: Code>(s: &[u8], span: Span) -> C
    ensures { result ≡ C.value_at (code_of C.LIST (span_in s.now span)) }
{
    C::from_number(code_of(C::LIST, span_in(s, span)))
}

// How long the part asked for lasts: from effective, or else from sent, to expires.
#[tactic(auto, unfolding(crate::specs::Sheets::lasts_of), using(crate::proofs::Durations::start_or, crate::proofs::Durations::start_range, time::proofs::Range::time_range))]
fn lasts_of(s: &[u8], facts: &Facts) -> Option<Lasting>
    ensures { lasts_answer result ≡ lasts_of s.now (alert_span facts.now) (part_span facts.now) }
{
    let effective = time_in(s, facts.part(class::EFFECTIVE));
    let sent = time_in(s, facts.alert(class::SENT));
    let expires = time_in(s, facts.part(class::EXPIRES));
    lasting::lasts_from(effective.or(sent), expires)
}

// The facts of the part asked for, which lasts some time.
fn part_of(s: &[u8], part: usize, total: usize, facts: &Facts, lasting: Lasting) -> Part
    requires { (part ≤ total) × (total ≤ 255) }
    ensures { result ≡ part_facts s.now part total (part_span facts.now) lasting }
{
    Part {
        number: part as u8,
        total: total as u8,
        urgency: code_in(s, facts.part(class::URGENCY)),
        severity: code_in(s, facts.part(class::SEVERITY)),
        certainty: code_in(s, facts.part(class::CERTAINTY)),
        lasting,
    }
}

// The sheet with the facts of a part, or of none.
fn sheet_with(s: &[u8], facts: &Facts, parts: Parts) -> CapSheet
    ensures { found_of result ≡ sheet_with s.now (alert_span facts.now) parts }
{
    CapSheet {
        facts: CapFacts {
            message: code_in(s, facts.alert(class::MSG_TYPE)),
            status: code_in(s, facts.alert(class::STATUS)),
            scope: code_in(s, facts.alert(class::SCOPE)),
            parts,
        },
        sender: facts.alert(class::SENDER),
        name: facts.alert(class::IDENTIFIER),
    }
}

// The sheet of the part asked for.
#[tactic(auto, using(crate::proofs::Meant::sheet_drawn, crate::proofs::Lookups::there_part, crate::proofs::Lookups::there_within))]
pub fn sheet_of_part(
    s: &[u8],
    part: usize,
    total: usize,
    facts: &Facts,
) -> Result<CapSheet, SheetError>
    requires { total ≤ 255 }
    ensures { sheet_answer result ≡ sheet_of_part s.now part total (alert_span facts.now) (part_span facts.now) }
{
    let Some(part) = look_up(part, total) else {
        return Err(SheetError::NotThere);
    };
    if part == 0 {
        return Ok(sheet_with(s, facts, None));
    }
    let lasting = lasts_of(s, facts).ok_or(SheetError::OutOfRange)?;
    let part = part_of(s, part, total, facts, lasting);
    Ok(sheet_with(s, facts, Some(part)))
}
