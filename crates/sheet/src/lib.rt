// Fact sheets: what a sentence says, as values. The definitions of the sentence and of reading it are in specs/, the laws in proofs/;
// the functions that write and read sentences are in the crates readback and reader.

#![tactic(auto)]

ghost use Rattle.std.specs.Prelude.{◌≡◌};
ghost use Rattle.sheet.specs.Reading.{span_in};

use codes::{Certainty, MessageType, Scope, Severity, Status, Urgency};

pub mod ranges; // ranges.rt: the ranges of a sheet's facts

// How long a CAP part lasts: document 01's lasting time, in seconds; none where no time is stated.
pub type Lasting = Option<u32>;

// A part of a CAP alert: an info element, by its number among all of them.
#[derive(Clone, Copy)]
pub struct Part {
    pub number: u8,
    pub total: u8,
    pub urgency: Urgency,
    pub severity: Severity,
    pub certainty: Certainty,
    pub lasting: Lasting,
}

// The part that a sheet tells of; document 01's part 0 of 0 is none.
pub type Parts = Option<Part>;

// The facts of a CAP sheet but its sender and name, which are bytes beside it.
#[derive(Clone, Copy)]
pub struct CapFacts {
    pub message: MessageType,
    pub status: Status,
    pub scope: Scope,
    pub parts: Parts,
}

// The facts of a WARN sheet.
#[derive(Clone, Copy)]
pub struct WarnFacts {
    pub urgent: bool,
    pub update: bool,
    pub cancel: bool,
    pub test: bool,
    pub event: u32,
    pub number: u16,
    pub origin: u32,
    pub lasting: u32,
    pub hazard: u8,
    pub kind: u8,
    pub urgency: u8,
    pub severity: u8,
    pub certainty: u8,
    pub response: u8,
}

// A part of a text. C reads it, so it is laid out as C does.
#[repr(C)]
#[derive(Clone, Copy)]
pub struct Span {
    pub start: usize,
    pub len: usize,
}

// A sheet that was found in a text: its facts, and for CAP where its sender and its name stand in the text.
#[derive(Clone, Copy)]
pub enum Found {
    Cap(CapFacts, Span, Span),
    Warn(WarnFacts),
}

// Why a sheet was not written: a fact is out of range, or its sentence has no room.
#[derive(Clone, Copy, Debug, PartialEq, Eq)]
pub enum WriteError {
    OutOfRange,
    NoRoom,
}

// What a text reads back as: how many read-backs it has and, where one was asked for, its sheet.
#[derive(Clone, Copy)]
pub struct ReadBack {
    pub count: usize,
    pub sheet: Option<Found>,
}

// Why a text was not read back: at an offset stands what is no read-back, or the one asked for is not there.
#[derive(Clone, Copy, Debug, PartialEq, Eq)]
pub enum ReadError {
    NotReadBack(usize),
    NotThere,
}

// The bytes of a part of a text. Past the text's end there are none.
pub fn span_in(text: &[u8], span: Span) -> &[u8]
    ensures { result.now ≡ span_in text.now span }
{
    text::first(text::skip(text, span.start), span.len)
}
