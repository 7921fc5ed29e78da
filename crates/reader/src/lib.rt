// Reads texts of read-backs: how many there are, and the sheet of the one asked for.

#![tactic(auto)]

mod scan; // scan.rt: what leads a text
mod cap; // cap.rt: CAP sentences, read loosely
mod warn; // warn.rt: WARN sentences, read loosely
mod line; // line.rt: what stands at an offset of a text

ghost use Rattle.std.specs.Prelude.{◌≡◌};
ghost use Rattle.sheet.specs.Answers.{read_back, read_answer};

use crate::line::line_at;
use sheet::{ReadBack, ReadError};

// Reads a text of read-backs, and gives their number and the sheet of the k-th, counted from 1; asked for 0, the number only.
#[tactic(auto, using(crate::proofs::Turns::turn_grows, crate::proofs::Turns::turn_within))]
pub fn read_back(text: &[u8], k: usize) -> Result<ReadBack, ReadError>
    ensures { read_answer result ≡ read_back text.now k }
{
    let mut at = 0;
    let mut count = 0;
    let mut sheet = None;
    while at < text.len() {
        let Some((found, size)) = line_at(text, at) else {
            return Err(ReadError::NotReadBack(at));
        };
        count += 1;
        if count == k {
            sheet = Some(found);
        }
        at += size;
    }
    if count < k {
        return Err(ReadError::NotThere);
    }
    Ok(ReadBack { count, sheet })
}
