// What is asked of a document, gathered along its events in one reading.
ghost use Rattle.std.specs.Prelude.{◌≡◌, ℕ, ◌+◌, ◌≤◌, OnOk};
ghost use Rattle.document.specs.Elements.{Element, fold};
ghost use Rattle.document.specs.Documents.{elements_of};
ghost use Rattle.parts.specs.Reading.{answer_of, event_answer, gathered, most};

use document::{Event, Refusal};

// A question to a document: what each event adds to the facts that answer it.
pub trait Question {
    type Facts: Drop;

    // the facts with what an element adds, where so many infos have started
    ghost noted: { Self → ℕ → Self.Facts → Element → Self.Facts };

    // what holds of facts that so many events gathered
    ghost within: { ℕ → Self.Facts → Type 0 } = { λ _ _. Unit {0} };

    // Tests the rule of an event's text, and adds what the event tells.
    fn note(
        &self,
        s: &[u8],
        infos: usize,
        facts: &mut Self::Facts,
        event: Event,
    ) -> Result<(), Refusal>
        requires { within most facts.old }
        ensures tested { answer_of result ≡ event_answer s.now event }
        ensures added { OnOk result (facts.new ≡ fold (noted self.now infos) facts.old (elements_of s.now event)) };

    ghost within_more: { (q : Self) (n k : ℕ) (f : Self.Facts) (x : Element) → within n f → within (n + 1) (noted q k f x) };

    ghost within_wider: { (n m : ℕ) (f : Self.Facts) → n ≤ m → within n f → within m f };
}

// Reads a document: its number of parts, and the facts with what all its events add.
pub fn read<Q: Question>(
    s: &[u8],
    question: &Q,
    mut facts: Q::Facts,
) -> Result<(usize, Q::Facts), Refusal>
    requires { Q.within 0 facts }
    ensures { answer_of result ≡ gathered (Q.noted question.now) facts s.now }
{
    let mut infos = 0;
    let mut step = document::first_step(s)?;
    while let Some((m, event)) = step {
        infos = m.infos;
        question.note(s, infos, &mut facts, event)?;
        step = document::constructs::read_step(s, m)?;
    }
    Ok((infos, facts))
}

// Tests the rule of an event's text.
pub fn test(s: &[u8], event: Event) -> Result<(), Refusal>
    ensures { answer_of result ≡ event_answer s.now event }
{
    let Event::Text(class, from, until) = event else {
        return Ok(());
    };
    rules::text_rule(class, text::part(s, from, until)).map_err(|fault| Refusal {
        fault,
        offset: from,
    })
}
