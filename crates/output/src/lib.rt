// What the programs write about a sheet.

#![tactic(auto)]

ghost use Rattle.std.specs.Prelude.{◌≡◌, OnOk};
ghost use Rattle.std.specs.Io.KnownBytes.{Appends};
ghost use Rattle.sheet.specs.Answers.{writing, write_answer, after};
ghost use Rattle.sheet.specs.Reading.{sheet_in};
ghost use Rattle.output.specs.Lines.{line_of};

use sheet::{Found, WriteError};
use shown::Facts;
use std::io;
use std::io::Write;

// Writes the sentence of a sheet, whose sender and name are parts of a text, over the front of a buffer.
#[tactic(auto, unfolding(sheet::specs::Reading::sheet_in))]
fn put_sentence(buffer: &mut [u8], text: &[u8], found: Found) -> Result<usize, WriteError>
    ensures { (write_answer result ≡ writing buffer.old 0 (sheet_in text.now found)) × (buffer.new ≡ after buffer.old 0 (sheet_in text.now found)) }
{
    match found {
        Found::Cap(facts, sender, name) => {
            let shown = Facts {
                facts,
                sender,
                name,
            };
            shown::write_shown(buffer, 0, text, shown)
        }
        Found::Warn(facts) => readback::write_warn(buffer, 0, facts),
    }
}

// Writes the sentence of a sheet, whose sender and name are parts of a text; or that it isn't written, where a fact is out of range.
#[tactic(auto, using(crate::proofs::Written::end_within, crate::proofs::Written::written_line))]
pub fn write_sentence<W: Write>(writer: &mut W, text: &[u8], found: Found) -> io::Result<()>
    ensures { OnOk result (Appends (W.contents writer.old) (W.contents writer.new) (line_of (sheet_in text.now found))) }
{
    let mut sentence = [0u8; readback::LONGEST];
    match put_sentence(&mut sentence, text, found) {
        Ok(end) => writer.write_all(&sentence[..end]),
        Err(_) => writer.write_all(b"not written\n"),
    }
}
