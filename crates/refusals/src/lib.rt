// The names of refusals, written into a lent buffer.

#![tactic(auto)]

ghost use Rattle.std.specs.Prelude.{◌≡◌};
ghost use Rattle.refusals.specs.declared.NameError.TheVariants.{NoRoom};
ghost use Rattle.refusals.specs.Names.{name_of, name_answer, naming, after_name};

use buffer::{NoRoom, write_text};
use text::entry;

// Why no name was written: the number has none, or there was no room for it.
#[derive(Clone, Copy, Debug, PartialEq, Eq)]
pub enum NameError {
    NotThere,
    NoRoom,
}

impl From<NoRoom> for NameError {
    ghost from_gives = { λ _ e. e ≡ NoRoom };

    fn from(_e: NoRoom) -> NameError {
        NameError::NoRoom
    }
}

// The name of each number, from 0 on; 0 and 20 are no refusal's.
const NAMES: [&[u8]; 25] = [
    b"",
    b"packet too short",
    b"not a WARN packet",
    b"version not known",
    b"not an alert",
    b"packet too long",
    b"place out of range",
    b"lasting time out of range",
    b"key not listed",
    b"signature not verified",
    b"sequence number not above the stored one",
    b"no free entry in the table",
    b"clock too late",
    b"no room in the buffer",
    b"too long, or too many infos",
    b"XML form not allowed",
    b"element not allowed, or missing",
    b"code not in its list",
    b"time not valid",
    b"sender or identifier empty or with a forbidden byte",
    b"",
    b"what was asked for is not there",
    b"polygon or circle not valid",
    b"not read-backs, or a fact out of range",
    b"no room for the list",
];

// The name of a refusal's number; empty where it has none.
fn name_of(number: u8) -> &'static [u8]
    ensures { result.now ≡ name_of number }
{
    entry(&NAMES, number as usize)
}

// Writes the name of a refusal's number into the buffer from start on; changes nothing where there is none or it has no room.
pub fn write_name(buffer: &mut [u8], start: usize, number: u8) -> Result<usize, NameError>
    ensures { (name_answer result ≡ naming buffer.old start number) × (buffer.new ≡ after_name buffer.old start number) }
{
    let name = name_of(number);
    if name.is_empty() {
        return Err(NameError::NotThere);
    }
    Ok(write_text(buffer, start, name)?)
}
