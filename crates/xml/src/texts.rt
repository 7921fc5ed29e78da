// Texts of leaf elements.
ghost use Rattle.std.specs.Prelude.{◌≡◌, not, ◌+◌, ◌≤◌, eqb, leb, length, drop};
ghost use Rattle.text.specs.Bytes.{leading};
ghost use Rattle.xml.specs.Bytes.{is_control, is_plain};
ghost use Rattle.xml.specs.Texts.{is_reference, is_fault, content};

use crate::ContentError;
use crate::bytes::{is_control, is_plain};
use crate::faults::faulty;

// Whether one of the five named references stands at an offset.
fn is_reference(s: &[u8], at: usize) -> bool
    ensures { result ≡ is_reference (drop at s.now) }
{
    text::starts_at(s, at, b"&amp;")
        | text::starts_at(s, at, b"&lt;")
        | text::starts_at(s, at, b"&gt;")
        | text::starts_at(s, at, b"&apos;")
        | text::starts_at(s, at, b"&quot;")
}

// Whether a fault of form stands at an offset.
fn is_fault(s: &[u8], at: usize) -> bool
    ensures { result ≡ is_fault (drop at s.now) }
{
    if s.len() <= at {
        return false;
    }
    let b = s[at];
    is_control(b) | ((b == b'&') & !is_reference(s, at)) | text::starts_at(s, at, b"]]>")
}

// Whether a byte is another one than x.
fn is_other(b: u8, x: u8) -> bool
    ensures { result ≡ not (eqb b x) }
{
    b != x
}

// Whether none of the 16 bytes from an offset on is x. There is no branch in the loop, so that the compiler can test them at once.
fn lacks(s: &[u8], at: usize, x: u8) -> bool
    requires { at + 16 ≤ length s.now }
    ensures { result ≡ leb 16 (leading (λ b. not (eqb b x)) (drop at s.now)) }
{
    let mut free = true;
    let mut i: usize = 0;
    while i < 16 {
        free = free & is_other(s[at + i], x);
        i += 1;
    }
    free
}

// Whether none of the 16 bytes from an offset on is a control byte.
fn lacks_control(s: &[u8], at: usize) -> bool
    requires { at + 16 ≤ length s.now }
    ensures { result ≡ leb 16 (leading (λ b. not (is_control b)) (drop at s.now)) }
{
    let mut free = true;
    let mut k: usize = 0;
    while k < 16 {
        free = free & !is_control(s[at + k]);
        k += 1;
    }
    free
}

// Whether the 16 bytes from an offset on are all plain: one test after the other, since the compiler mixes up tests of several values in one loop.
fn is_plain_block(s: &[u8], at: usize) -> bool
    requires { at + 16 ≤ length s.now }
    ensures { result ≡ leb 16 (leading is_plain (drop at s.now)) }
{
    if !lacks(s, at, b'<') {
        return false;
    }
    if !lacks(s, at, b'&') {
        return false;
    }
    if !lacks(s, at, b']') {
        return false;
    }
    lacks_control(s, at)
}

// An offset before which all bytes from `at` on are plain, found by whole blocks.
fn skip_blocks(s: &[u8], at: usize) -> usize
    ensures { result + leading is_plain (drop result s.now) ≡ at + leading is_plain (drop at s.now) }
{
    if s.len() < 16 {
        return at;
    }
    let last = s.len() - 16;
    let mut i = at;
    while i <= last {
        if !is_plain_block(s, i) {
            return i;
        }
        i += 16;
    }
    i
}

// The first offset from `at` on that holds no plain byte.
fn plain_end(s: &[u8], at: usize) -> usize
    ensures { result ≡ at + leading is_plain (drop at s.now) }
{
    let mut i = skip_blocks(s, at);
    while i < s.len() {
        if is_plain(s[i]) {
            i += 1;
        } else {
            return i;
        }
    }
    i
}

// Where the text that starts at an offset ends: from one byte that isn't plain to the next.
pub fn read_text(s: &[u8], at: usize) -> Result<usize, ContentError>
    ensures { result ≡ content s.now at }
{
    let mut i = plain_end(s, at);
    while i < s.len() {
        if s[i] == b'<' {
            return Ok(i);
        }
        if is_fault(s, i) {
            return Err(faulty(s, i, b"<"));
        }
        i = plain_end(s, i + 1);
    }
    Err(ContentError::Unended)
}
