// What a CAP document holds beside its tags: where a text, a comment or the declaration ends, and whether document 01 takes it.
// Any offset may be given: past the end a document holds nothing.

#![tactic(auto)]

pub mod comments; // comments.rt
pub mod opening; // opening.rt: byte order mark and declaration
pub mod texts; // texts.rt: texts of leaf elements
mod bytes; // bytes.rt: bytes by their kind
mod faults; // faults.rt: what has a fault, by whether its end follows

// Why a text, a comment or a declaration has no end that may be taken: a fault at an offset before it, or no end at all.
#[derive(Clone, Copy, Debug, PartialEq, Eq)]
pub enum ContentError {
    Fault(usize),
    Unended,
}

// The same of a comment, whose refusal stands at its opening, wherever the fault is.
#[derive(Clone, Copy, Debug, PartialEq, Eq)]
pub enum CommentError {
    Fault,
    Unended,
}

// What stands before the first construct is refused, at an offset.
#[derive(Clone, Copy, Debug, PartialEq, Eq)]
pub struct PrologError {
    pub offset: usize,
}
