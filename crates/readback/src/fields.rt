// The fields of a sentence, each after the text in front of it. A field's writer is lent the part of the buffer that starts where the field starts.
ghost use Rattle.std.specs.Prelude.{List, ℕ, [], ◌∷◌};
ghost use Rattle.buffer.specs.Cursor.{Put, PutAll};
ghost use Rattle.words.specs.Words.{said};
ghost use Rattle.words.specs.Duration.{lasting};
ghost use Rattle.codes.specs.Lists.{small_text};

use buffer::put;
use codes::Code;
use codes::texts::put_code;
use spoken::duration::put_duration;
use spoken::number::put_number;

// What a field says.
pub trait Field: Copy {
    ghost words: { Self → List ℕ };

    // Writes as much of it as fits into dst from the offset at on, and gives the next start.
    fn put(self, dst: &mut [u8], at: usize) -> usize
        ensures { Put dst.old at (words self) dst.new result };
}

// A text as it stands: a sender or a name.
#[derive(Clone, Copy)]
pub struct Text<'a>(pub &'a [u8]);

impl Field for Text<'_> {
    ghost words = { λ t. t.0.now };

    fn put(self, dst: &mut [u8], at: usize) -> usize {
        put(dst, at, self.0)
    }
}

// A number in words.
#[derive(Clone, Copy)]
pub struct Number(pub u32);

impl Field for Number {
    ghost words = { λ n. said n.0 };

    fn put(self, dst: &mut [u8], at: usize) -> usize {
        put_number(dst, at, self.0)
    }
}

// A number of seconds in words.
#[derive(Clone, Copy)]
pub struct Seconds(pub u32);

impl Field for Seconds {
    ghost words = { λ s. lasting s.0 };

    fn put(self, dst: &mut [u8], at: usize) -> usize {
        put_duration(dst, at, self.0)
    }
}

// A CAP code in small letters.
#[derive(Clone, Copy)]
pub struct Small<C>(pub C);

impl<C: Code> Field for Small<C> {
    ghost words = { λ c. small_text C.LIST (C.number_of c.0) };

    fn put(self, dst: &mut [u8], at: usize) -> usize {
        put_code(dst, at, C::LIST, self.0.number())
    }
}

// A field after the text in front of it.
pub fn put_field<F: Field>(dst: &mut [u8], at: usize, before: &[u8], field: F) -> usize
    ensures { PutAll dst.old at (before.now ∷ F.words field ∷ []) dst.new result }
{
    let a = put(dst, at, before);
    if dst.len() < a {
        return a;
    }
    a + field.put(&mut dst[a..], 0)
}
