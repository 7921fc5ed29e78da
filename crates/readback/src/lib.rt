// Read-backs: the sentences of fact sheets, written into a lent buffer.

#![tactic(auto)]

mod fields; // fields.rt: the fields of a sentence
pub mod cap; // cap.rt: the sentence of a CAP sheet
pub mod warn; // warn.rt: the sentence of a WARN sheet
mod sheets; // sheets.rt: the sentence of a sheet of either kind, where it has room

ghost use Rattle.std.specs.Prelude.{◌≡◌};
ghost use Rattle.sheet.specs.Sheet.{cap, warn};
ghost use Rattle.sheet.specs.Reading.{sheet_in};
ghost use Rattle.sheet.specs.Answers.{writing, write_answer, after};

use crate::sheets::{Cap, write};
use sheet::{CapFacts, Found, WarnFacts, WriteError, span_in};

// The length of the longest sentence (sheet/specs/Sentence.antt: `longest`).
pub const LONGEST: usize = 651;

// Writes the sentence of a CAP sheet from start on. A sheet with a fact out of range, and one without room there, changes nothing.
pub fn write_cap(
    buffer: &mut [u8],
    start: usize,
    facts: CapFacts,
    sender: &[u8],
    name: &[u8],
) -> Result<usize, WriteError>
    ensures { (write_answer result ≡ writing buffer.old start (cap facts sender.now name.now)) × (buffer.new ≡ after buffer.old start (cap facts sender.now name.now)) }
{
    let sheet = Cap {
        facts,
        sender,
        name,
    };
    write(buffer, start, sheet)
}

// Writes the sentence of a WARN sheet from start on, or refuses it likewise.
pub fn write_warn(buffer: &mut [u8], start: usize, facts: WarnFacts) -> Result<usize, WriteError>
    ensures { (write_answer result ≡ writing buffer.old start (warn facts)) × (buffer.new ≡ after buffer.old start (warn facts)) }
{
    write(buffer, start, facts)
}

// Writes the sentence of a sheet that was found in a text.
#[tactic(auto, unfolding(sheet::specs::Reading::sheet_in))]
pub fn write_found(
    buffer: &mut [u8],
    start: usize,
    text: &[u8],
    found: Found,
) -> Result<usize, WriteError>
    ensures { (write_answer result ≡ writing buffer.old start (sheet_in text.now found)) × (buffer.new ≡ after buffer.old start (sheet_in text.now found)) }
{
    match found {
        Found::Cap(facts, sender, name) => write_cap(
            buffer,
            start,
            facts,
            span_in(text, sender),
            span_in(text, name),
        ),
        Found::Warn(facts) => write_warn(buffer, start, facts),
    }
}
