// Reads a text of read-backs from standard input and lists them, each written anew from its sheet; or writes where the text isn't read-backs. A text of
// more than 262,144 bytes is not judged by its first ones: it is said to be too long. A line that can't be written is left out.

#![tactic(auto)]

use sheet::ReadError;
use std::io;

// How long a text may be.
const MOST: usize = 262144;

fn print_refusal(rt: &impl Print, error: ReadError) -> io::Result<()> {
    match error {
        ReadError::NotReadBack(offset) => println!(rt; "refused 23 at {offset}"),
        ReadError::NotThere => println!(rt; "refused 21 at 0"),
    }
}

// Writes the read-back of a line, from its sheet.
fn print_line(rt: &impl Print, line: &[u8]) -> io::Result<()> {
    match reader::read_back(line, 1).map(|read| read.sheet) {
        Ok(Some(found)) => output::write_sentence(&mut io::writer(rt), line, found),
        Ok(None) => Ok(()),
        Err(error) => print_refusal(rt, error),
    }
}

// Writes how many read-backs there are, and each of them: every line of the text is one.
fn list(rt: &impl Print, text: &[u8], total: usize) -> io::Result<()> {
    let _ = println!(rt; "{total} read-backs");
    for line in text.split_inclusive(|byte| *byte == b'\n') {
        let _ = print_line(rt, line);
    }
    Ok(())
}

// Writes what a text reads back as.
fn print_text(rt: &impl Print, text: &[u8]) -> io::Result<()> {
    match reader::read_back(text, 0) {
        Ok(read) => list(rt, text, read.count),
        Err(error) => print_refusal(rt, error),
    }
}

fn main(rt: HostRuntime) {
    let mut buffer = [0u8; MOST];
    let _ = match input::read_whole_input(&mut rt.reader(), &mut buffer) {
        Ok(input) if input.more => println!(rt; "input over {MOST} bytes"),
        Ok(input) => print_text(&rt, input.bytes),
        Err(_) => println!(rt; "input can't be read"),
    };
}
