// The tags of CAP documents: where a tag and its name end, and the name space attribute of the alert.
// Any offset may be given: past the end a document holds nothing.

#![tactic(auto)]

pub mod attributes; // attributes.rt: the name space attribute
mod bytes; // bytes.rt: bytes by their kind
pub mod ends; // ends.rt: where tags and their names end

// What ends a tag after its name or attribute: ">" or "/>", with the offset after it.
#[derive(Clone, Copy, Debug, PartialEq, Eq)]
pub enum Tail {
    Open(usize),
    Empty(usize),
}

// The prefix that a tag's name space attribute binds, from one offset until another, and the offset after the tag.
#[derive(Clone, Copy, Debug, PartialEq, Eq)]
pub struct Binding {
    pub from: usize,
    pub until: usize,
    pub next: usize,
}

// Why a tag binds no prefix that may be taken: it is an empty tag, or has a fault.
#[derive(Clone, Copy, Debug, PartialEq, Eq)]
pub enum NameSpaceError {
    Empty,
    Fault,
}
