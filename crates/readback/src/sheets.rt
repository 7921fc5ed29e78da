// Sheets of both kinds, as what is to be written: whether a sheet is in range, its sentence, and the room for it.
ghost use Rattle.std.specs.Prelude.{◌≡◌, ◌≤◌, leb, length};
ghost use Rattle.buffer.specs.Cursor.{Put};
ghost use Rattle.sheet.specs.Sheet.{Sheet, cap, warn, in_range};
ghost use Rattle.sheet.specs.Sentence.{sentence, longest};
ghost use Rattle.sheet.specs.Answers.{writing, write_answer, after};

use crate::LONGEST;
use crate::cap::put_cap;
use crate::warn::put_warn;
use sheet::ranges::{is_cap, is_warn};
use sheet::{CapFacts, WarnFacts, WriteError};

// A sheet that can be written.
pub trait Written: Copy {
    ghost sheet: { Self → Sheet };

    // Whether its facts keep to their ranges.
    fn is_in_range(self) -> bool
        ensures { result ≡ in_range (sheet self) };

    // Writes as much of its sentence as fits into dst from the offset at on, and gives the next start.
    fn put(self, dst: &mut [u8], at: usize) -> usize
        ensures { Put dst.old at (sentence (sheet self)) dst.new result };
}

// A CAP sheet: its facts, its sender and its name.
#[derive(Clone, Copy)]
pub struct Cap<'a> {
    pub facts: CapFacts,
    pub sender: &'a [u8],
    pub name: &'a [u8],
}

impl Written for Cap<'_> {
    ghost sheet = { λ s. cap s.facts s.sender.now s.name.now };

    fn is_in_range(self) -> bool {
        is_cap(self.facts, self.sender, self.name)
    }

    #[tactic(auto, unfolding(sheet::specs::Sentence::sentence, sheet::specs::Sentence::sentence_in))]
    fn put(self, dst: &mut [u8], at: usize) -> usize {
        put_cap(dst, at, self.facts, self.sender, self.name)
    }
}

impl Written for WarnFacts {
    ghost sheet = { warn };

    fn is_in_range(self) -> bool {
        is_warn(self)
    }

    #[tactic(auto, unfolding(sheet::specs::Sentence::sentence, sheet::specs::Sentence::sentence_in))]
    fn put(self, dst: &mut [u8], at: usize) -> usize {
        put_warn(dst, at, self)
    }
}

// Whether a sheet's sentence has room. Where the room could be too little for it, it is measured in an array.
fn has_room<S: Written>(room: usize, sheet: S) -> bool
    requires { length (sentence (S.sheet sheet)) ≤ longest }
    ensures { result ≡ leb (length (sentence (S.sheet sheet))) room }
{
    if LONGEST <= room {
        return true;
    }
    let mut own = [0u8; LONGEST];
    sheet.put(&mut own, 0) <= room
}

// Writes the sentence of a sheet from start on. A sheet with a fact out of range, and one without room there, changes nothing.
pub fn write<S: Written>(buffer: &mut [u8], start: usize, sheet: S) -> Result<usize, WriteError>
    ensures { (write_answer result ≡ writing buffer.old start (S.sheet sheet)) × (buffer.new ≡ after buffer.old start (S.sheet sheet)) }
{
    if !sheet.is_in_range() {
        return Err(WriteError::OutOfRange);
    }
    if buffer.len() < start {
        return Err(WriteError::NoRoom);
    }
    if !has_room(buffer.len() - start, sheet) {
        return Err(WriteError::NoRoom);
    }
    Ok(sheet.put(buffer, start))
}
