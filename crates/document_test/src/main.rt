// Checks documents, and writes for each whether it is accepted, with its number of parts, or refused, with number and offset.
// Standard input is a run of records: a length (3 bytes, big-endian) and a document. tests/documents.py writes the records and, by
// the independent model, the stored output. A line that can't be written is left out.

#![tactic(auto)]

use std::io;
use std::io::Read;

fn print_check(rt: &impl Print, document: &[u8]) -> io::Result<()> {
    match document::check_document(document) {
        Ok(parts) => println!(rt; "accepted {parts}"),
        Err(refusal) => println!(rt; "refused {} at {}", u8::from(refusal.fault), refusal.offset),
    }
}

// The length of the next document; none where the input has ended.
fn read_length<R: Read>(reader: &mut R) -> Option<usize> {
    let mut front = [0u8; 3];
    reader.read_exact(&mut front).ok()?;
    let [high, middle, low] = front;
    Some(u32::from_be_bytes([0, high, middle, low]) as usize)
}

// Checks the documents of the input, at most a million; stops at one that the buffer can't hold, or that the input ends before.
fn check_all<R: Read>(rt: &impl Print, reader: &mut R) -> io::Result<()> {
    let mut buffer = [0u8; 70000];
    for _ in 0..1000000 {
        let Some(length) = read_length(reader) else {
            return Ok(());
        };
        let Some(document) = buffer.get_mut(..length) else {
            return println!(rt; "document over 70000 bytes");
        };
        if reader.read_exact(document).is_err() {
            return println!(rt; "document cut short");
        }
        let _ = print_check(rt, document);
    }
    println!(rt; "stopped after 1000000 documents")
}

fn main(rt: HostRuntime) {
    let _ = check_all(&rt, &mut rt.reader());
}
