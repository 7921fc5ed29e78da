// Where the texts of a sheet stand, gathered while the document is read.
ghost use Rattle.std.specs.Prelude.{◌≡◌, ◌+◌, ◌<◌, ◌≤◌};
ghost use Rattle.schema.specs.Classes.{identifier, urgency};
ghost use Rattle.parts.specs.Reading.{answer_of};
ghost use Rattle.parts.specs.Gathering.{kept, stored, alert_span, part_span, noted, reading_of};

use crate::reading::{Question, read, test};
use document::{Event, Refusal};
use schema::class;
use sheet::Span;

// How many classes, from a first one on, have the offsets of their texts kept.
const KEPT: usize = 7;

// Where the texts stand that a sheet is drawn from: those of the alert's own classes from identifier to scope, and those of the asked part's classes from
// urgency to expires.
#[derive(Clone, Copy)]
pub struct Facts {
    pub alert: [Span; KEPT],
    pub part: [Span; KEPT],
}

// No text, at no offset.
const NOWHERE: Span = Span { start: 0, len: 0 };

impl Facts {
    // Nothing gathered yet.
    const NONE: Facts = Facts {
        alert: [NOWHERE; KEPT],
        part: [NOWHERE; KEPT],
    };

    // Where the text of one of the alert's own classes stands.
    pub fn alert(&self, class: usize) -> Span
        requires { (identifier ≤ class) × (class < identifier + kept) }
        ensures { result ≡ alert_span self.now class }
    {
        self.alert[class - class::IDENTIFIER]
    }

    // Where the text of one of the part's classes stands.
    pub fn part(&self, class: usize) -> Span
        requires { (urgency ≤ class) × (class < urgency + kept) }
        ensures { result ≡ part_span self.now class }
    {
        self.part[class - class::URGENCY]
    }
}

// Puts the span of a class into those of the classes from the first one on, if it is one of them.
fn store(spans: &mut [Span; KEPT], first: usize, class: usize, span: Span)
    ensures { spans.new ≡ stored first class span spans.old }
{
    if first <= class && class - first < KEPT {
        spans[class - first] = span;
    }
}

// Where the texts stand that the sheet of a part is drawn from.
#[derive(Clone, Copy)]
struct Texts {
    part: usize,
}

impl Question for Texts {
    type Facts = Facts;

    ghost noted = { λ q. noted q.part };

    ghost within_more = { λ q n k f x h. tt };

    ghost within_wider = { λ n m f h g. tt };

    #[tactic(auto, unfolding(document::specs::Elements::fold), using(crate::proofs::Keeping::noted_other))]
    fn note(&self, s: &[u8], infos: usize, facts: &mut Facts, event: Event) -> Result<(), Refusal> {
        test(s, event)?;
        let Event::Text(class, start, until) = event else {
            return Ok(());
        };
        let len = text::part(s, start, until).len();
        let span = Span { start, len };
        if infos == 0 {
            store(&mut facts.alert, class::IDENTIFIER, class, span);
        }
        if infos == self.part {
            store(&mut facts.part, class::URGENCY, class, span);
        }
        Ok(())
    }
}

// Reads a document: its number of parts, and where the texts stand that the sheet of a part is drawn from.
#[tactic(auto, unfolding(crate::specs::Gathering::reading_of))]
pub fn read_facts(s: &[u8], part: usize) -> Result<(usize, Facts), Refusal>
    ensures { answer_of result ≡ reading_of part s.now }
{
    read(s, &Texts { part }, Facts::NONE)
}
