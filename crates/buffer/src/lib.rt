// Texts written into a lent buffer.

#![tactic(auto)]

ghost use Rattle.std.specs.Prelude.{◌≡◌};
ghost use Rattle.buffer.specs.Cursor.{Put};
ghost use Rattle.buffer.specs.Writing.{write_text, text_answer, after_text};

// The error of a write whose text has no room.
#[derive(Clone, Copy, Debug, PartialEq, Eq)]
pub struct NoRoom;

// Writes as much of src as fits into dst from the offset at on, and gives the next start.
// kept: dst and at as two parameters; of a buffer in a cursor's struct nothing is known once the cursor ends, so no proof closed
pub fn put(dst: &mut [u8], at: usize, src: &[u8]) -> usize
    ensures { Put dst.old at src.now dst.new result }
{
    if dst.len() <= at {
        return at;
    }
    let count = src.len().min(dst.len() - at);
    // kept: byte by byte, since of the slice's own copy the compiler makes a call of memmove, which the library for C does without
    for i in 0..count {
        dst[at + i] = src[i];
    }
    at + count
}

// Writes a text into the buffer from start on and gives where it ends; changes nothing where it has no room there.
pub fn write_text(buffer: &mut [u8], start: usize, text: &[u8]) -> Result<usize, NoRoom>
    ensures { (text_answer result ≡ write_text buffer.old start text.now) × (buffer.new ≡ after_text buffer.old start text.now) }
{
    if buffer.len() < start || buffer.len() - start < text.len() {
        return Err(NoRoom);
    }
    Ok(put(buffer, start, text))
}
