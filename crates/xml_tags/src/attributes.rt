// The name space attribute, the only one that document 01 takes.
ghost use Rattle.std.specs.Prelude.{◌≡◌, ◌+◌, drop};
ghost use Rattle.text.specs.Bytes.{leading};
ghost use Rattle.xml_tags.specs.Bytes.{is_letter};
ghost use Rattle.xml_tags.specs.Attributes.{value, equals, declared, name_space};

use crate::bytes::is_letter;
use crate::ends::read_tail;
use crate::{Binding, NameSpaceError, Tail};

// The bytes of the name space in its quotes.
const QUOTED_LENGTH: usize = 38;

// The longest prefix.
const MAX_PREFIX: usize = 16;

// The first offset from `at` on that holds no letter.
fn skip_letters(s: &[u8], at: usize) -> usize
    ensures { result ≡ at + leading is_letter (drop at s.now) }
{
    let mut i = at;
    while i < s.len() {
        if is_letter(s[i]) {
            i += 1;
        } else {
            return i;
        }
    }
    i
}

// The value, in either quote, and nothing after it but the tag's end: the offset after the tag.
#[tactic(auto, unfolding(crate::specs::Attributes::value))]
fn read_value(s: &[u8], at: usize) -> Result<usize, NameSpaceError>
    ensures { result ≡ value s.now at }
{
    let is_value = text::starts_at(s, at, b"\"urn:oasis:names:tc:emergency:cap:1.2\"")
        | text::starts_at(s, at, b"'urn:oasis:names:tc:emergency:cap:1.2'");
    if !is_value {
        return Err(NameSpaceError::Fault);
    }
    match read_tail(s, at + QUOTED_LENGTH) {
        Some(Tail::Open(next)) => Ok(next),
        Some(Tail::Empty(_)) => Err(NameSpaceError::Empty),
        None => Err(NameSpaceError::Fault),
    }
}

// "=" with white space around it, and the value: the offset after the tag.
#[tactic(auto, using(text::proofs::Parts::starts_at_le), unfolding(crate::specs::Attributes::equals))]
fn read_equals(s: &[u8], at: usize) -> Result<usize, NameSpaceError>
    ensures { result ≡ equals s.now at }
{
    let i = text::skip_space(s, at);
    if !text::starts_at(s, i, b"=") {
        return Err(NameSpaceError::Fault);
    }
    read_value(s, text::skip_space(s, i + 1))
}

// What stands after "xmlns": ":" and a prefix of 1 to 16 letters, or none, for the empty prefix.
#[tactic(auto, using(text::proofs::Parts::starts_at_le), unfolding(crate::specs::Attributes::declared, crate::specs::Attributes::prefixed))]
fn read_declared(s: &[u8], at: usize) -> Result<Binding, NameSpaceError>
    ensures { result ≡ declared s.now at }
{
    if !text::starts_at(s, at, b":") {
        let next = read_equals(s, at)?;
        return Ok(Binding {
            from: at,
            until: at,
            next,
        });
    }
    let from = at + 1;
    let until = skip_letters(s, from);
    if !(1..=MAX_PREFIX).contains(&(until - from)) {
        return Err(NameSpaceError::Fault);
    }
    let next = read_equals(s, until)?;
    Ok(Binding { from, until, next })
}

// The name space attribute after a tag's name that ends at n, and the tag's end.
#[tactic(auto, using(text::proofs::Parts::starts_at_le), unfolding(crate::specs::Attributes::name_space))]
pub fn read_name_space(s: &[u8], n: usize) -> Result<Binding, NameSpaceError>
    ensures { result ≡ name_space s.now n }
{
    let i = text::skip_space(s, n);
    if (i <= n) | !text::starts_at(s, i, b"xmlns") {
        return Err(NameSpaceError::Fault);
    }
    read_declared(s, i + 5)
}
