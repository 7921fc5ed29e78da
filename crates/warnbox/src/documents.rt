// CAP documents.
ghost use Rattle.std.specs.Prelude.{◌≡◌};
ghost use Rattle.text.specs.Answers.{giving};
ghost use Rattle.document.specs.Documents.{check_of};
ghost use Rattle.parts.specs.Sheets.{cap_sheet};
ghost use Rattle.parts.specs.Places.{cap_place};
ghost use Rattle.parts.specs.Reasons.{cap_why};
ghost use Rattle.numbers.specs.Numbers.{numbers_of};
ghost use Rattle.warnbox.specs.Replies.{reply, given_or, side_number, why_numbers};
ghost use Rattle.warnbox.specs.Sentences.{sentence_of, after_sentence};
ghost use Rattle.warnbox.specs.Sheets.{drawn_answer, no_more};

use crate::reasons::{put_why, told_side};
use crate::replies::{Refused, tell};
use crate::sheets::{put_numbers, write_drawn};
use coordinates::Place;
use sheet::Found;

// The number of parts of a document.
fn count_parts(document: &[u8]) -> Result<usize, Refused>
    ensures { drawn_answer result ≡ check_of document.now }
{
    Ok(document::check_document(document)?)
}

// The sheet of a part.
fn sheet_of(document: &[u8], part: usize) -> Result<Found, Refused>
    ensures { drawn_answer result ≡ cap_sheet part document.now }
{
    let sheet = parts::cap_sheet(document, part)?;
    Ok(Found::Cap(sheet.facts, sheet.sender, sheet.name))
}

// What a part says of a place; the numbers of the reason go where C wants them.
#[tactic(auto, using(parts::proofs::Meant::side_said, parts::proofs::Meant::why_place))]
fn why_of(
    document: &[u8],
    part: usize,
    place: Place,
    why: &mut [usize; 4],
) -> Result<usize, Refused>
    ensures { (drawn_answer result ≡ giving side_number (cap_place part place document.now))
        × (why.new ≡ given_or why.old (giving why_numbers (cap_why part place document.now))) }
{
    let answer = parts::cap_why(document, part, place);
    put_why(why, answer);
    told_side(parts::side_of(answer))
}

// Checks a document; the value is its number of parts.
pub fn warnbox_check_document(document: &[u8], value: &mut usize) -> u8
    ensures { (result ≡ (reply (check_of document.now)).number) × (value.new ≡ (reply (check_of document.now)).value) }
{
    tell(count_parts(document), value)
}

// Writes the sentence of a part of a document; the value is the sentence's end.
pub fn warnbox_document_sentence(
    buffer: &mut [u8],
    start: usize,
    document: &[u8],
    part: usize,
    value: &mut usize,
) -> u8
    ensures { (result ≡ (reply (sentence_of buffer.old start document.now (cap_sheet part document.now))).number)
        × (value.new ≡ (reply (sentence_of buffer.old start document.now (cap_sheet part document.now))).value)
        × (buffer.new ≡ after_sentence buffer.old start document.now (cap_sheet part document.now)) }
{
    let drawn = sheet_of(document, part);
    tell(write_drawn(buffer, start, document, drawn), value)
}

// Draws the sheet of a part of a document, as numbers; the value is 0. A refusal leaves `sheet` as it was.
pub fn warnbox_document_sheet(
    document: &[u8],
    part: usize,
    sheet: &mut [u64; 15],
    value: &mut usize,
) -> u8
    ensures { (result ≡ (reply (giving no_more (cap_sheet part document.now))).number)
        × (value.new ≡ (reply (giving no_more (cap_sheet part document.now))).value)
        × (sheet.new ≡ given_or sheet.old (giving numbers_of (cap_sheet part document.now))) }
{
    tell(put_numbers(sheet, sheet_of(document, part)), value)
}

// Whether a place is inside a part of a document; the value is 0 for outside, 1 for inside, 2 for no shape.
pub fn warnbox_document_place(
    document: &[u8],
    part: usize,
    lat: i32,
    lon: i32,
    value: &mut usize,
) -> u8
    ensures { (result ≡ (reply (giving side_number (cap_place part (record { lat = lat; lon = lon }) document.now))).number)
        × (value.new ≡ (reply (giving side_number (cap_place part (record { lat = lat; lon = lon }) document.now))).value) }
{
    tell(
        told_side(parts::cap_place(document, part, Place { lat, lon })),
        value,
    )
}

// Why a place is inside a part of a document or outside it; number and value are those of whether it is. A refusal leaves `why` as it was.
pub fn warnbox_document_why(
    document: &[u8],
    part: usize,
    lat: i32,
    lon: i32,
    why: &mut [usize; 4],
    value: &mut usize,
) -> u8
    ensures { (result ≡ (reply (giving side_number (cap_place part (record { lat = lat; lon = lon }) document.now))).number)
        × (value.new ≡ (reply (giving side_number (cap_place part (record { lat = lat; lon = lon }) document.now))).value)
        × (why.new ≡ given_or why.old (giving why_numbers (cap_why part (record { lat = lat; lon = lon }) document.now))) }
{
    tell(why_of(document, part, Place { lat, lon }, why), value)
}
