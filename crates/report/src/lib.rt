// What the program writes about a document: each part's sentence, or the refusal that stops it.

#![tactic(auto)]

ghost use Rattle.std.specs.Prelude.{◌≡◌};
ghost use Rattle.report.specs.Lines.{reported, reported_in, report_answer};

use buffer::NoRoom;

mod digits; // digits.rt: numbers in digits, and the line of a refusal
mod lines; // lines.rt: the lines of parts

// Room for any report.
pub const ROOM: usize = 12_000;

// Writes all that the program says about a document over the front of a buffer of ROOM bytes at least, and gives its end.
pub fn write_report(buffer: &mut [u8], s: &[u8]) -> Result<usize, NoRoom>
    ensures { (report_answer result ≡ reported buffer.old s.now) × (buffer.new ≡ reported_in buffer.old s.now) }
{
    if buffer.len() < ROOM {
        return Err(NoRoom);
    }
    Ok(match document::check_document(s) {
        Ok(0) => lines::put_lines(buffer, s, 0, 1),
        Ok(parts) => lines::put_lines(buffer, s, 1, parts),
        Err(refusal) => digits::put_refusal(buffer, 0, refusal.fault.into(), refusal.offset),
    })
}
