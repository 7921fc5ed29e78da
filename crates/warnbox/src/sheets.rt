// Sheets that are drawn from a part of a document or from a packet, or handed in: their sentence and their numbers.
ghost use Rattle.std.specs.Prelude.{◌≡◌};
ghost use Rattle.text.specs.Answers.{giving};
ghost use Rattle.sheet.specs.Reading.{sheet_in};
ghost use Rattle.sheet.specs.Answers.{writing, write_answer, after};
ghost use Rattle.numbers.specs.Numbers.{numbers_of};
ghost use Rattle.warnbox.specs.Replies.{given_or};
ghost use Rattle.warnbox.specs.Sentences.{sentence_of, after_sentence};
ghost use Rattle.warnbox.specs.Sheets.{drawn_answer, no_more};

use crate::replies::Refused;
use sheet::{Found, WriteError, span_in};

// Puts the numbers of a sheet where C wants them, and has no more to tell; where there is no sheet, what is there stays.
pub fn put_numbers(numbers: &mut [u64; 15], drawn: Result<Found, Refused>) -> Result<usize, Refused>
    ensures { (drawn_answer result ≡ giving no_more (drawn_answer drawn))
        × (numbers.new ≡ given_or numbers.old (giving numbers_of (drawn_answer drawn))) }
{
    *numbers = numbers::numbers_of(drawn?);
    Ok(0)
}

// Writes the sentence of a sheet, whose sender and name are parts of a text.
#[tactic(auto, unfolding(sheet::specs::Reading::sheet_in))]
fn write_sentence(
    buffer: &mut [u8],
    start: usize,
    text: &[u8],
    found: Found,
) -> Result<usize, WriteError>
    ensures { (write_answer result ≡ writing buffer.old start (sheet_in text.now found)) × (buffer.new ≡ after buffer.old start (sheet_in text.now found)) }
{
    match found {
        Found::Cap(facts, sender, name) => {
            let sender = span_in(text, sender);
            let name = span_in(text, name);
            readback::write_cap(buffer, start, facts, sender, name)
        }
        Found::Warn(facts) => readback::write_warn(buffer, start, facts),
    }
}

// Writes the sentence of a sheet that was drawn from a text, or handed in with it.
#[tactic(auto, unfolding(crate::specs::Sentences::sentence_of, crate::specs::Sentences::after_sentence))]
pub fn write_drawn(
    buffer: &mut [u8],
    start: usize,
    text: &[u8],
    drawn: Result<Found, Refused>,
) -> Result<usize, Refused>
    ensures { (drawn_answer result ≡ sentence_of buffer.old start text.now (drawn_answer drawn)) × (buffer.new ≡ after_sentence buffer.old start text.now (drawn_answer drawn)) }
{
    Ok(write_sentence(buffer, start, text, drawn?)?)
}
