// The numbers of a sheet.
ghost use Rattle.std.specs.Prelude.{◌≡◌};
ghost use Rattle.numbers.specs.Numbers.{stated_of, seconds_of, part_numbers, cap_numbers, warn_numbers};

use codes::Code;
use sheet::{CapFacts, Lasting, Parts, Span, WarnFacts};

fn stated_of(lasting: Lasting) -> u64
    ensures { result ≡ stated_of lasting }
{
    lasting.is_some() as u64
}

fn seconds_of(lasting: Lasting) -> u64
    ensures { result ≡ seconds_of lasting }
{
    lasting.unwrap_or(0) as u64
}

// The numbers of the part that a CAP sheet tells of; all 0 where it tells of none.
fn part_numbers(parts: Parts) -> [u64; 7]
    ensures { result ≡ part_numbers parts }
{
    let Some(p) = parts else {
        return [0; 7];
    };
    [
        p.number as u64,
        p.total as u64,
        p.urgency.number() as u64,
        p.severity.number() as u64,
        p.certainty.number() as u64,
        stated_of(p.lasting),
        seconds_of(p.lasting),
    ]
}

// The numbers of a CAP sheet, by its facts and where its sender and name stand.
pub fn cap_numbers(f: CapFacts, sender: Span, name: Span) -> [u64; 15]
    ensures { result ≡ cap_numbers f sender name }
{
    let [number, total, urgency, severity, certainty, stated, seconds] = part_numbers(f.parts);
    [
        1,
        f.message.number() as u64,
        f.status.number() as u64,
        f.scope.number() as u64,
        number,
        total,
        urgency,
        severity,
        certainty,
        stated,
        seconds,
        sender.start as u64,
        sender.len as u64,
        name.start as u64,
        name.len as u64,
    ]
}

// The numbers of a WARN sheet.
#[tactic(auto, unfolding(crate::specs::Numbers::warn_numbers))]
pub fn warn_numbers(w: WarnFacts) -> [u64; 15]
    ensures { result ≡ warn_numbers w }
{
    [
        2,
        w.urgent as u64,
        w.update as u64,
        w.cancel as u64,
        w.test as u64,
        w.event as u64,
        w.number as u64,
        w.origin as u64,
        w.lasting as u64,
        w.hazard as u64,
        w.kind as u64,
        w.urgency as u64,
        w.severity as u64,
        w.certainty as u64,
        w.response as u64,
    ]
}
