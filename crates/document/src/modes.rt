// Modes: where reading stands.
ghost use Rattle.std.specs.Prelude.{◌≡◌};
ghost use Rattle.document.specs.Tags.{moved, entered, open_class};
ghost use Rattle.document.specs.Constructs.{after_space};
ghost use Rattle.document.specs.Documents.{begin};

use crate::{Mode, Refusal};
use rules::Fault;

// The states before the alert and after it.
pub const BEFORE: usize = 1;

pub const OVER: usize = 2;

impl Mode {
    // The mode before the first construct, which starts at an offset.
    pub fn begin(at: usize) -> Mode
        ensures { result ≡ begin at }
    {
        Mode {
            at,
            state: BEFORE,
            leaf: None,
            infos: 0,
            prefix_start: 0,
            prefix_end: 0,
        }
    }

    // The mode at another offset, in a state and a leaf.
    pub fn moved(self, at: usize, state: usize, leaf: Option<usize>) -> Mode
        ensures { result ≡ moved self at state leaf }
    {
        Mode {
            at,
            state,
            leaf,
            ..self
        }
    }

    // The mode after the white space at its offset.
    pub fn after_space(self, s: &[u8]) -> Mode
        ensures { result ≡ after_space s.now self }
    {
        Mode {
            at: text::skip_space(s, self.at),
            ..self
        }
    }

    // The mode after a container's start tag, which ends before an offset.
    pub fn entered(self, state: usize, infos: usize, next: usize) -> Mode
        ensures { result ≡ entered self state infos next }
    {
        Mode {
            at: next,
            state,
            leaf: None,
            infos,
            ..self
        }
    }

    // The class of the element whose end tag is due, 0 for the document itself.
    pub fn open_class(self) -> usize
        ensures { result ≡ open_class self }
    {
        self.leaf
            .unwrap_or_else(|| schema::order::container_of(self.state))
    }

    // A refusal at the mode's offset.
    pub fn refuse(self, fault: Fault) -> Refusal
        ensures { result ≡ record { fault = fault; offset = self.at } }
    {
        Refusal {
            fault,
            offset: self.at,
        }
    }
}
