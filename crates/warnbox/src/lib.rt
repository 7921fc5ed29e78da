// The warning box as C calls it, through the crate warnbox_c: include/warnbox.h documents each function for its callers.
// A function that can refuse gives the number of the refusal, 0 for none. Where there is something to tell, or a refusal has an offset, it writes a value:
// the refusal's offset, or else what the function tells. Kept as numbers and lent places: the C interface.

#![tactic(auto)]

pub mod documents; // documents.rt: CAP documents
pub mod names; // names.rt: the names of refusals, and the library's version
pub mod packets; // packets.rt: WARN packets
mod reasons; // reasons.rt: why a place is inside a part of a document or outside it, as numbers
mod replies; // replies.rt: answers as numbers
pub mod running; // running.rt: the running events of the event table
pub mod sentences; // sentences.rt: writing a sheet, and reading a text back
mod sheets; // sheets.rt: sheets that are drawn from documents and packets, or handed in
pub mod tables; // tables.rt: the event table as the caller lends it

// What a function gives back: the number of a refusal, 0 for none, and the value.
#[derive(Clone, Copy)]
pub struct Reply {
    pub number: u8,
    pub value: usize,
}
