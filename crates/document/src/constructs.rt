// One construct of a document, after any white space.
ghost use Rattle.std.specs.Prelude.{◌≡◌};
ghost use Rattle.xml.specs.Comments.{comment};
ghost use Rattle.document.specs.declared.Mode.{Mode};
ghost use Rattle.document.specs.Steps.{Next, taken_answer, step_answer};
ghost use Rattle.document.specs.Constructs.{comment_step, stop_step, construct_step, step_of};
ghost use Rattle.document.specs.Tested.{tested, test_answer};

use crate::tags::tag_step;
use crate::{Event, Mode, Refusal, modes};
use rules::Fault;
use xml::CommentError;

// A comment, whose text starts at an offset.
fn comment_step(s: &[u8], m: Mode, from: usize) -> Result<(Mode, Event), Refusal>
    ensures { tested s.now (taken_answer result) ≡ comment_step s.now m (comment s.now from) }
{
    match xml::comments::read_comment(s, from) {
        Ok(next) if m.leaf.is_none() => Ok((m.moved(next, m.state, None), Event::Silent)),
        Ok(_) | Err(CommentError::Fault) => Err(m.refuse(Fault::Form)),
        Err(CommentError::Unended) => Err(Refusal::short(s)),
    }
}

// The document's end.
fn stop_step(s: &[u8], m: Mode) -> Result<Option<(Mode, Event)>, Refusal>
    ensures { tested s.now (step_answer result) ≡ stop_step s.now m }
{
    if m.state == modes::OVER {
        return Ok(None);
    }
    Err(Refusal::short(s))
}

// The construct at the mode's offset.
#[tactic(auto, unfolding(crate::specs::Constructs::construct_step))]
fn construct_step(s: &[u8], m: Mode) -> Result<Option<(Mode, Event)>, Refusal>
    ensures { tested s.now (step_answer result) ≡ construct_step s.now m }
{
    if s.len() <= m.at {
        return stop_step(s, m);
    }
    if text::starts_at(s, m.at, b"<!--") {
        return comment_step(s, m, m.at + 4).map(Some);
    }
    if s[m.at] == b'<' {
        return tag_step(s, m).map(Some);
    }
    Err(m.refuse(Fault::Form))
}

// The construct after the white space at the mode's offset. The rule of its text, if it tells one, is still to be tested.
#[tactic(auto, unfolding(crate::specs::Constructs::step_of))]
pub fn read_step(s: &[u8], m: Mode) -> Result<Option<(Mode, Event)>, Refusal>
    ensures { tested s.now (step_answer result) ≡ step_of s.now m }
{
    construct_step(s, m.after_space(s))
}

// The rule of an event's text, if it tells one.
fn test_text(s: &[u8], event: Event) -> Result<(), Refusal>
    ensures { (m : Mode) → test_answer m event result ≡ tested s.now (Next m event) }
{
    let Event::Text(class, offset, until) = event else {
        return Ok(());
    };
    rules::text_rule(class, text::part(s, offset, until)).map_err(|fault| Refusal { fault, offset })
}

// The construct after the white space at the mode's offset, with the rule of its text tested.
pub fn take_step(s: &[u8], m: Mode) -> Result<Option<(Mode, Event)>, Refusal>
    ensures { step_answer result ≡ step_of s.now m }
{
    let step = read_step(s, m)?;
    if let Some((_, event)) = step {
        test_text(s, event)?;
    }
    Ok(step)
}
