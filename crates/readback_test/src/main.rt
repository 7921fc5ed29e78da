// Writes a mixed list of sheets one after the other into one buffer, refused ones among them, and reads the text back.
// tests/readback.py writes the stored output from the independent model. A line that can't be written is left out.

#![tactic(auto)]

use codes::{Certainty, MessageType, Scope, Severity, Status, Urgency};
use sheet::{CapFacts, Lasting, Part, Parts, ReadError, WarnFacts, WriteError};
use std::io;

// The buffer's length: of the last three sheets only the second fits, and just so.
const ROOM: usize = 1020;

// The text that is written, up to an end.
#[derive(Drop)]
struct Text {
    bytes: [u8; ROOM],
    end: usize,
}

impl Text {
    // Writes the sentence of a CAP sheet at the end of the text, and what the writer answers.
    fn cap(&mut self, rt: &impl Print, facts: CapFacts, sender: &[u8], name: &[u8]) {
        let answer = readback::write_cap(&mut self.bytes, self.end, facts, sender, name);
        self.go_on(rt, answer);
    }

    // The same of a WARN sheet.
    fn warn(&mut self, rt: &impl Print, facts: WarnFacts) {
        let answer = readback::write_warn(&mut self.bytes, self.end, facts);
        self.go_on(rt, answer);
    }

    // Prints the answer to a write. The next write starts where this one ended, or where it was refused.
    fn go_on(&mut self, rt: &impl Print, answer: Result<usize, WriteError>) {
        let _ = match answer {
            Ok(end) => {
                self.end = end;
                println!(rt; "end {end}")
            }
            Err(WriteError::OutOfRange) => println!(rt; "refused 23 at 0"),
            Err(WriteError::NoRoom) => println!(rt; "refused 13 at 0"),
        };
    }
}

fn alert(parts: Parts) -> CapFacts {
    CapFacts {
        message: MessageType::Alert,
        status: Status::Actual,
        scope: Scope::Public,
        parts,
    }
}

fn part(number: u8, total: u8, lasting: Lasting) -> Parts {
    Some(Part {
        number,
        total,
        urgency: Urgency::Immediate,
        severity: Severity::Extreme,
        certainty: Certainty::Observed,
        lasting,
    })
}

fn warning(event: u32, lasting: u32) -> WarnFacts {
    WarnFacts {
        urgent: true,
        update: false,
        cancel: true,
        test: false,
        event,
        number: 2,
        origin: 21,
        lasting,
        hazard: 1,
        kind: 0,
        urgency: 3,
        severity: 2,
        certainty: 1,
        response: 0,
    }
}

// Document 01's three samples.
fn write_samples(rt: &impl Print, text: &mut Text) {
    let cancel = CapFacts {
        message: MessageType::Cancel,
        ..alert(None)
    };
    text.cap(rt, alert(part(1, 1, Some(900))), b"kiln.example", b"A17");
    text.cap(rt, cancel, b"kiln.example", b"A18");
    text.warn(rt, warning(7, 3900));
}

// CAP sheets with a part out of range, with too many parts, and with one that lasts too long.
fn write_bad_parts(rt: &impl Print, text: &mut Text) {
    text.cap(rt, alert(part(0, 1, None)), b"a", b"A");
    text.cap(rt, alert(part(2, 1, None)), b"a", b"A");
    text.cap(rt, alert(part(1, 17, None)), b"a", b"A");
    text.cap(rt, alert(part(1, 1, Some(31536001))), b"a", b"A");
}

// CAP sheets with a sender out of range.
fn write_bad_names(rt: &impl Print, text: &mut Text) {
    text.cap(rt, alert(part(1, 1, Some(900))), b"a,b", b"A");
    text.cap(rt, alert(None), b"", b"A");
    text.cap(rt, alert(None), b"a]]>", b"A");
}

// WARN sheets that last too short and too long a time, and the longest and the shortest.
fn write_warnings(rt: &impl Print, text: &mut Text) {
    text.warn(rt, warning(0, 0));
    text.warn(rt, warning(1, 31536001));
    text.warn(rt, warning(4294967295, 31536000));
    text.warn(rt, warning(1, 1));
}

// A CAP sheet at the end of its range.
fn write_last_part(rt: &impl Print, text: &mut Text) {
    let facts = CapFacts {
        message: MessageType::Error,
        status: Status::Draft,
        scope: Scope::Restricted,
        parts: part(16, 16, None),
    };
    text.cap(rt, facts, b"]]", b"]>");
}

fn write_list(rt: &impl Print, text: &mut Text) {
    write_samples(rt, text);
    write_bad_parts(rt, text);
    write_bad_names(rt, text);
    write_warnings(rt, text);
    write_last_part(rt, text);
    write_samples(rt, text);
}

fn print_read(rt: &impl Print, text: &[u8], k: usize) -> io::Result<()> {
    match reader::read_back(text, k) {
        Ok(read) => match read.sheet {
            Some(found) => {
                let _ = print!(rt; "{}: ", read.count);
                output::write_sentence(&mut io::writer(rt), text, found)
            }
            None => println!(rt; "{} sentences", read.count),
        },
        Err(ReadError::NotReadBack(offset)) => println!(rt; "refused 23 at {offset}"),
        Err(ReadError::NotThere) => println!(rt; "refused 21 at 0"),
    }
}

// A text whose second line is damaged, asked for its first sentence and for their number.
fn print_damaged(rt: &impl Print) {
    let text =
        b"cap ack, test, private, from a, name b, no parts.\ncap ack, Test, private, from a, name b, no parts.\n";
    let _ = print_read(rt, text, 1);
    let _ = print_read(rt, text, 0);
}

fn main(rt: HostRuntime) {
    let mut text = Text {
        bytes: [b'-'; ROOM],
        end: 0,
    };
    write_list(&rt, &mut text);
    let _ = rt.write_all(&text.bytes);
    let _ = println!(rt);
    if let Some(written) = text.bytes.get(..text.end) {
        for k in 0..12 {
            let _ = print_read(&rt, written, k);
        }
    }
    print_damaged(&rt);
}
