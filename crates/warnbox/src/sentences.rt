// Writing a sheet that is handed in as numbers, and reading a text back.
ghost use Rattle.std.specs.Prelude.{◌≡◌};
ghost use Rattle.text.specs.Answers.{giving};
ghost use Rattle.sheet.specs.Answers.{read_back};
ghost use Rattle.warnbox.specs.Replies.{reply, count_of};
ghost use Rattle.warnbox.specs.Sentences.{sentence_of, after_sentence, lies_in, stands_in, handed_in, numbers_read};
ghost use Rattle.warnbox.specs.Sheets.{drawn_answer};

use crate::replies::{Refused, tell};
use crate::sheets::write_drawn;
use sheet::{Found, Span};

// Whether a part lies in a text.
fn lies_in(text: &[u8], span: Span) -> bool
    ensures { result ≡ lies_in text.now span }
{
    span.start <= text.len() && span.len <= text.len() - span.start
}

// Whether a sheet's sender and name are parts of a text.
fn stands_in(text: &[u8], found: Found) -> bool
    ensures { result ≡ stands_in text.now found }
{
    match found {
        Found::Cap(_, sender, name) => lies_in(text, sender) && lies_in(text, name),
        Found::Warn(_) => true,
    }
}

// The sheet that is handed in as numbers, with the text in which its sender and name are to stand.
#[tactic(auto, unfolding(crate::specs::Sentences::standing))]
fn handed_in(text: &[u8], numbers: &[u64; 15]) -> Result<Found, Refused>
    ensures { drawn_answer result ≡ handed_in text.now numbers.now }
{
    match numbers::numbers_sheet(numbers) {
        Some(found) if stands_in(text, found) => Ok(found),
        _ => Err(Refused::whole(23)),
    }
}

// The number of read-backs of a text.
fn count(text: &[u8]) -> Result<usize, Refused>
    ensures { drawn_answer result ≡ giving count_of (read_back text.now 0) }
{
    Ok(reader::read_back(text, 0)?.count)
}

// The number of read-backs of a text; and the numbers of the sheet asked for, which are put where C wants them.
fn put_read_back(numbers: &mut [u64; 15], text: &[u8], k: usize) -> Result<usize, Refused>
    ensures { (drawn_answer result ≡ giving count_of (read_back text.now k))
        × (numbers.new ≡ numbers_read numbers.old (read_back text.now k)) }
{
    let read = reader::read_back(text, k)?;
    if let Some(found) = read.sheet {
        *numbers = numbers::numbers_of(found);
    }
    Ok(read.count)
}

// Writes the sentence of a sheet, whose sender and name stand in a text; the value is the sentence's end.
pub fn warnbox_write(
    buffer: &mut [u8],
    start: usize,
    text: &[u8],
    sheet: &[u64; 15],
    value: &mut usize,
) -> u8
    ensures { (result ≡ (reply (sentence_of buffer.old start text.now (handed_in text.now sheet.now))).number)
        × (value.new ≡ (reply (sentence_of buffer.old start text.now (handed_in text.now sheet.now))).value)
        × (buffer.new ≡ after_sentence buffer.old start text.now (handed_in text.now sheet.now)) }
{
    tell(
        write_drawn(buffer, start, text, handed_in(text, sheet)),
        value,
    )
}

// Counts the read-backs of a text; the value is their number.
pub fn warnbox_count(text: &[u8], value: &mut usize) -> u8
    ensures { (result ≡ (reply (giving count_of (read_back text.now 0))).number) × (value.new ≡ (reply (giving count_of (read_back text.now 0))).value) }
{
    tell(count(text), value)
}

// Gives the sheet of a read-back of a text, counted from 1; the value is the number of read-backs.
pub fn warnbox_read_back(text: &[u8], k: usize, sheet: &mut [u64; 15], value: &mut usize) -> u8
    ensures { (result ≡ (reply (giving count_of (read_back text.now k))).number)
        × (value.new ≡ (reply (giving count_of (read_back text.now k))).value)
        × (sheet.new ≡ numbers_read sheet.old (read_back text.now k)) }
{
    tell(put_read_back(sheet, text, k), value)
}
