// The byte order mark and the declaration.
ghost use Rattle.std.specs.Prelude.{◌≡◌, ◌≤◌, drop};
ghost use Rattle.xml.specs.Opening.{after_bom, declares, declaration_text, declaration, prolog};

use crate::bytes::is_control;
use crate::faults::faulty;
use crate::{ContentError, PrologError};

// The offset after the byte order mark, if there is one.
fn after_bom(s: &[u8]) -> usize
    ensures { result ≡ after_bom s.now }
{
    if text::starts_at(s, 0, b"\xEF\xBB\xBF") {
        return 3;
    }
    0
}

// Whether a declaration starts at an offset.
fn declares(s: &[u8], at: usize) -> bool
    requires { at ≤ 3 }
    ensures { result ≡ declares (drop at s.now) }
{
    if s.len() <= at + 5 {
        return false;
    }
    text::starts_at(s, at, b"<?xml") & text::is_space(s[at + 5])
}

// Where a declaration ends, from an offset in it on.
fn read_declaration_text(s: &[u8], at: usize) -> Result<usize, ContentError>
    ensures { result ≡ declaration_text s.now at }
{
    for i in at..s.len() {
        if text::starts_at(s, i, b"?>") {
            return Ok(i);
        }
        if is_control(s[i]) {
            return Err(faulty(s, i, b"?>"));
        }
    }
    Err(ContentError::Unended)
}

// The offset after the declaration that starts at an offset.
#[tactic(auto, unfolding(crate::specs::Opening::declaration))]
fn read_declaration(s: &[u8], at: usize) -> Result<usize, PrologError>
    requires { at ≤ 3 }
    ensures { result ≡ declaration s.now at }
{
    match read_declaration_text(s, at + 6) {
        Ok(end) => {
            if end + 2 - at <= 128 {
                Ok(end + 2)
            } else {
                Err(PrologError { offset: at })
            }
        }
        Err(ContentError::Fault(_)) => Err(PrologError { offset: at }),
        Err(ContentError::Unended) => Err(PrologError { offset: s.len() }),
    }
}

// The offset after what may stand before the first construct of a document.
#[tactic(auto, unfolding(crate::specs::Opening::prolog))]
pub fn read_prolog(s: &[u8]) -> Result<usize, PrologError>
    ensures { result ≡ prolog s.now }
{
    let at = after_bom(s);
    if declares(s, at) {
        return read_declaration(s, at);
    }
    Ok(at)
}
