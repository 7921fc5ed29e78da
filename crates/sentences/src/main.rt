// Reads one CAP document from standard input and writes each part's sentence, or the refusal that stops it. Whether the output can be written is not
// looked at.

#![tactic(auto)]

use report::ROOM;
use std::io;

#[tactic(auto, using(crate::proofs::Within::end_within))]
fn print_report(rt: &impl Print, document: &[u8]) -> io::Result<()> {
    let mut lines = [0u8; ROOM];
    match report::write_report(&mut lines, document) {
        Ok(end) => rt.write_all(&lines[..end]),
        Err(_) => Ok(()), // never: there is room for any report
    }
}

fn main(rt: HostRuntime) {
    let mut buffer = [0u8; document::MAX_LENGTH + 1]; // one byte more than a document may have: what follows can't change the answer
    let _ = match input::read_whole_input(&mut rt.reader(), &mut buffer) {
        Ok(input) => print_report(&rt, input.bytes),
        Err(_) => println!(rt; "input can't be read"),
    };
}
