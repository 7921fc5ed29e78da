// A fact sheet that shows its sender and name as parts of a lent text: of the CAP document that it was drawn from, or of the text that it was read
// out of.

#![tactic(auto)]

ghost use Rattle.std.specs.Prelude.{◌≡◌};
ghost use Rattle.sheet.specs.Answers.{writing, write_answer, after};
ghost use Rattle.shown.specs.Slices.{sender_in, name_in, sheet_with};

use sheet::{CapFacts, Span, WriteError, span_in};

// The facts of a CAP sheet, with where its sender and its name stand in a text.
#[derive(Clone, Copy)]
pub struct Facts {
    pub facts: CapFacts,
    pub sender: Span,
    pub name: Span,
}

// A sheet that holds the text in which its sender and its name stand.
#[derive(Clone, Copy)]
pub struct ShownSheet<'a> {
    pub text: &'a [u8],
    pub facts: Facts,
}

impl<'a> ShownSheet<'a> {
    // The sheet of facts and the text in which its sender and name stand.
    pub fn new(text: &'a [u8], facts: Facts) -> ShownSheet<'a>
        ensures { (result.text ≡ text.entry) × (result.facts ≡ facts) }
    {
        ShownSheet { text, facts }
    }

    // The sheet's sender, a part of its text.
    pub fn sender(self) -> &'a [u8]
        ensures { result.now ≡ sender_in self.entry.text.now self.entry.facts }
    {
        span_in(self.text, self.facts.sender)
    }

    // The sheet's name, a part of its text.
    pub fn name(self) -> &'a [u8]
        ensures { result.now ≡ name_in self.entry.text.now self.entry.facts }
    {
        span_in(self.text, self.facts.name)
    }

    // Writes the sheet's sentence, of the sender and the name that it shows.
    pub fn write(self, buffer: &mut [u8], start: usize) -> Result<usize, WriteError>
        ensures { (write_answer result ≡ writing buffer.old start (sheet_with self.entry.text.now self.entry.facts)) × (buffer.new ≡ after buffer.old start (sheet_with self.entry.text.now self.entry.facts)) }
    {
        readback::write_cap(buffer, start, self.facts.facts, self.sender(), self.name())
    }
}

// Writes the sentence of the sheet that the facts make with a text. Its parameters are plain, so no caller's proof meets the sheet.
pub fn write_shown(
    buffer: &mut [u8],
    start: usize,
    text: &[u8],
    facts: Facts,
) -> Result<usize, WriteError>
    ensures { (write_answer result ≡ writing buffer.old start (sheet_with text.now facts)) × (buffer.new ≡ after buffer.old start (sheet_with text.now facts)) }
{
    ShownSheet::new(text, facts).write(buffer, start)
}
