// CAP 1.2 documents: which are accepted, and why one is refused.

#![tactic(auto)]

ghost use Rattle.std.specs.Prelude.{◌≡◌, length};
ghost use Rattle.rules.specs.declared.Fault.TheVariants.{Form};
ghost use Rattle.document.specs.Steps.{step_answer};
ghost use Rattle.document.specs.Documents.{first_step, check_of, check_answer};

use rules::Fault;
use xml::PrologError;

pub mod constructs; // constructs.rt: one construct
mod elements; // elements.rt: after a start tag
mod modes; // modes.rt: where reading stands
mod names; // names.rt: names of tags
mod tags; // tags.rt: tags

// The largest length of a document, in bytes.
pub const MAX_LENGTH: usize = 65_536;

// Where reading stands: the offset, the state of the container, the leaf whose end tag is due, if one is, the infos so far,
// and where the document's prefix stands.
#[derive(Clone, Copy)]
pub struct Mode {
    pub at: usize,
    pub state: usize,
    pub leaf: Option<usize>,
    pub infos: usize,
    pub prefix_start: usize,
    pub prefix_end: usize,
}

// What a construct tells: nothing; a container's start (class, offset); a leaf's text (class, from, until); a container's end (class).
#[derive(Clone, Copy, Debug, PartialEq, Eq)]
pub enum Event {
    Silent,
    Opened(usize, usize),
    Text(usize, usize, usize),
    Closed(usize),
}

// Why a document is refused, and where.
#[derive(Clone, Copy, Debug, PartialEq, Eq)]
pub struct Refusal {
    pub fault: Fault,
    pub offset: usize,
}

impl Refusal {
    // Input that stops short is refused at its length.
    fn short(s: &[u8]) -> Refusal
        ensures { result ≡ record { fault = Fault.Form; offset = length s.now } }
    {
        Refusal {
            fault: Fault::Form,
            offset: s.len(),
        }
    }
}

impl From<PrologError> for Refusal {
    ghost from_gives = { λ e r. r ≡ record { fault = Form; offset = e.offset } };

    fn from(error: PrologError) -> Refusal {
        Refusal {
            fault: Fault::Form,
            offset: error.offset,
        }
    }
}

// The first step: past what stands before the first construct, or a refusal. Every loop over a document starts with it.
#[tactic(auto, unfolding(crate::specs::Documents::first_step))]
pub fn first_step(s: &[u8]) -> Result<Option<(Mode, Event)>, Refusal>
    ensures { step_answer result ≡ first_step s.now }
{
    if MAX_LENGTH < s.len() {
        return Err(Refusal {
            fault: Fault::TooLong,
            offset: 0,
        });
    }
    let at = xml::opening::read_prolog(s)?;
    Ok(Some((Mode::begin(at), Event::Silent)))
}

// Checks a document: accepted with its number of parts, or refused with number and place.
pub fn check_document(s: &[u8]) -> Result<usize, Refusal>
    ensures { check_answer result ≡ check_of s.now }
{
    let mut infos = 0;
    let mut step = first_step(s)?;
    while let Some((m, _)) = step {
        infos = m.infos;
        step = constructs::take_step(s, m)?;
    }
    Ok(infos)
}
