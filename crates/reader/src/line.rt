// What stands at an offset of a text: a sheet as far as it can be read, and whether the text goes on with exactly that sheet's
// sentence.
ghost use Rattle.std.specs.Prelude.{◌≡◌, drop};
ghost use Rattle.sheet.specs.Reading.{found_at, line_at};

use crate::cap::cap_at;
use crate::warn::warn_of;
use readback::{LONGEST, write_found};
use sheet::Found;

// What a text says from an offset on, as far as it can be read.
fn found_at(t: &[u8], at: usize) -> Found
    ensures { result ≡ found_at at (drop at t.now) }
{
    let start = text::skip(t, at);
    if text::starts_with(start, b"warn") {
        return Found::Warn(warn_of(start));
    }
    cap_at(t, at)
}

// The line at an offset: a read-back exactly where the sentence of what was read stands there. The array has room for every sentence.
pub fn line_at(t: &[u8], at: usize) -> Option<(Found, usize)>
    ensures { result ≡ line_at at (drop at t.now) }
{
    let found = found_at(t, at);
    let mut own = [0u8; LONGEST];
    let Ok(size) = write_found(&mut own, 0, t, found) else {
        return None;
    };
    if text::starts_at(t, at, &own[..size]) {
        return Some((found, size));
    }
    None
}
