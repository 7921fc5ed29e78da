// The lines of parts.
ghost use Rattle.std.specs.Prelude.{◌≡◌, ◌≤◌};
ghost use Rattle.buffer.specs.Cursor.{Put};
ghost use Rattle.report.specs.Lines.{lines_from};
ghost use Rattle.report.specs.PartLine.{LineTo};

use crate::digits::put_refusal;
use parts::SheetError;
use readback::cap::put_cap;
use sheet::span_in;
use std::ops::ControlFlow;

// Writes the line of a part, and gives the next start; it breaks where the line is a refusal, the last one.
#[tactic(auto, using(crate::proofs::Drawing::drawn_sheet))]
fn put_line(dst: &mut [u8], at: usize, s: &[u8], part: usize) -> ControlFlow<usize, usize>
    ensures { LineTo s.now part dst.old at dst.new result }
{
    match parts::cap_sheet(s, part) {
        Ok(sheet) => {
            let sender = span_in(s, sheet.sender);
            let name = span_in(s, sheet.name);
            ControlFlow::Continue(put_cap(dst, at, sheet.facts, sender, name))
        }
        Err(SheetError::NotThere) => ControlFlow::Break(put_refusal(dst, at, 21, 0)),
        Err(SheetError::OutOfRange) => ControlFlow::Break(put_refusal(dst, at, 7, 0)),
        Err(SheetError::Document(refusal)) => {
            ControlFlow::Break(put_refusal(dst, at, refusal.fault.into(), refusal.offset))
        }
    }
}

// Writes the lines of some parts over the front of dst, from the first part's to the first refusal, and gives the next start.
#[tactic(auto, using(crate::proofs::Following::left_next, crate::proofs::Following::left_stop, crate::proofs::Following::left_none))]
pub fn put_lines(dst: &mut [u8], s: &[u8], first: usize, many: usize) -> usize
    requires { (first ≤ 1) × (many ≤ 16) }
    ensures { Put dst.old 0 (lines_from s.now many first) dst.new result }
{
    let mut at = 0;
    for part in first..first + many {
        match put_line(dst, at, s, part) {
            ControlFlow::Continue(next) => at = next,
            ControlFlow::Break(end) => return end,
        }
    }
    at
}
