// Elements after a start tag whose name is known: containers, and leaves with their texts.
ghost use Rattle.std.specs.Prelude.{◌≡◌, List, ℕ};
ghost use Rattle.xml.specs.Texts.{content};
ghost use Rattle.document.specs.Steps.{taken_answer};
ghost use Rattle.document.specs.Tags.{text_step, enter_step, next_state, open_step, empty_step};
ghost use Rattle.document.specs.Tested.{tested};

use crate::{Event, Mode, Refusal};
use rules::Fault;
use schema::class;
use xml::ContentError;

// How many infos an alert may have.
const MAX_INFOS: usize = 16;

// The text of a leaf, which starts at an offset. Its rule is still to be tested.
fn text_step(
    s: &[u8],
    m: Mode,
    state: usize,
    class: usize,
    from: usize,
) -> Result<(Mode, Event), Refusal>
    ensures { tested s.now (taken_answer result) ≡ text_step s.now m state class from (content s.now from) }
{
    match xml::texts::read_text(s, from) {
        Ok(until) => Ok((
            m.moved(until, state, Some(class)),
            Event::Text(class, from, until),
        )),
        Err(ContentError::Fault(offset)) => Err(Refusal {
            fault: Fault::Form,
            offset,
        }),
        Err(ContentError::Unended) => Err(Refusal::short(s)),
    }
}

// A container's start tag, which ends before an offset.
fn enter_step(m: Mode, state: usize, class: usize, next: usize) -> Result<(Mode, Event), Refusal>
    ensures { (l : List ℕ) → tested l (taken_answer result) ≡ enter_step m state class next }
{
    let mut infos = m.infos;
    if class == class::INFO {
        if MAX_INFOS <= infos {
            return Err(m.refuse(Fault::TooLong));
        }
        infos += 1;
    }
    Ok((m.entered(state, infos, next), Event::Opened(class, m.at)))
}

// The state after the start of an element of a class, or the refusal where it may not stand here.
fn next_state(m: Mode, class: usize) -> Result<usize, Refusal>
    ensures { result ≡ next_state m class }
{
    let state = schema::order::next(m.state, class);
    if class == 0 || m.leaf.is_some() || state == 0 {
        return Err(m.refuse(Fault::Element));
    }
    Ok(state)
}

// The start tag of an element of a class, which ends before an offset.
#[tactic(auto, unfolding(crate::specs::Tags::open_step))]
pub fn open_step(s: &[u8], m: Mode, class: usize, next: usize) -> Result<(Mode, Event), Refusal>
    ensures { tested s.now (taken_answer result) ≡ open_step s.now m class next }
{
    let state = next_state(m, class)?;
    if class <= class::GEOCODE {
        return enter_step(m, state, class, next);
    }
    text_step(s, m, state, class, next)
}

// The empty tag of an element of a class, which ends before an offset: an empty text, whose rule is still to be tested.
#[tactic(auto, using(text::proofs::Parts::part_none), unfolding(crate::specs::Tags::empty_step))]
pub fn empty_step(m: Mode, class: usize, next: usize) -> Result<(Mode, Event), Refusal>
    ensures { (l : List ℕ) → tested l (taken_answer result) ≡ empty_step m class next }
{
    let state = next_state(m, class)?;
    if class <= class::GEOCODE {
        return Err(m.refuse(Fault::Element));
    }
    Ok((m.moved(next, state, None), Event::Text(class, next, next)))
}
