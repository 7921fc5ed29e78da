// Bytes of texts: what is white space and what a digit, where a run of them ends; parts of texts, and texts compared.

#![tactic(auto)]

ghost use Rattle.std.specs.Prelude.{◌≡◌, [], ◌+◌, ◌-◌, map, take, drop, get_or};
ghost use Rattle.text.specs.Bytes.{is_space, spaces, is_digit};
ghost use Rattle.text.specs.Logic.{eql};
ghost use Rattle.text.specs.Parts.{part, starts_with};
ghost use Rattle.text.specs.Tokens.{token_length};

// Whether a byte is white space: tab, line feed, carriage return or space.
pub fn is_space(b: u8) -> bool
    ensures { result ≡ is_space b }
{
    matches!(b, b'\t' | b'\n' | b'\r' | b' ')
}

// Whether a byte is a decimal digit.
pub fn is_digit(b: u8) -> bool
    ensures { result ≡ is_digit b }
{
    matches!(b, b'0'..=b'9')
}

// The first offset from `at` on that holds no white space; `at` itself where it lies past the end.
pub fn skip_space(s: &[u8], at: usize) -> usize
    ensures { result ≡ at + spaces (drop at s.now) }
{
    for i in at..s.len() {
        if !is_space(s[i]) {
            return i;
        }
    }
    at.max(s.len())
}

// The first offset from `at` on that holds white space, or the end; `at` itself where it lies past the end.
pub fn token_end(s: &[u8], at: usize) -> usize
    ensures { result ≡ at + token_length (drop at s.now) }
{
    for i in at..s.len() {
        if is_space(s[i]) {
            return i;
        }
    }
    at.max(s.len())
}

// What stands after the first k bytes of a text.
pub fn skip(t: &[u8], k: usize) -> &[u8]
    ensures { result.now ≡ drop k t.now }
{
    &t[k.min(t.len())..]
}

// The first k bytes of a text, or all of it where it has fewer.
pub fn first(t: &[u8], k: usize) -> &[u8]
    ensures { result.now ≡ take k t.now }
{
    t.get(..k).unwrap_or(t)
}

// The bytes of a text from one offset to another; none where the second is not after the first.
pub fn part(t: &[u8], from: usize, until: usize) -> &[u8]
    ensures { result.now ≡ part t.now from until }
{
    first(skip(t, from), until.saturating_sub(from))
}

// The text at an index of a table; the empty text past its end.
pub fn entry<'a>(table: &[&'a [u8]], index: usize) -> &'a [u8]
    ensures { result.now ≡ get_or (map (λ t. t.now) table.now) index [] }
{
    table.get(index).copied().unwrap_or(b"")
}

// Whether a text starts with p.
#[tactic(auto, using(crate::proofs::Parts::starts_on, crate::proofs::Parts::starts_differ, crate::proofs::Parts::starts_short, crate::proofs::Parts::starts_end))]
pub fn starts_with(t: &[u8], p: &[u8]) -> bool
    ensures { result ≡ starts_with p.now t.now }
{
    if t.len() < p.len() {
        return false;
    }
    // kept: on texts of nine bytes and more the slice's own starts_with takes three times as long
    for i in 0..p.len() {
        if t[i] != p[i] {
            return false;
        }
    }
    true
}

// Whether p stands at an offset of a text.
pub fn starts_at(t: &[u8], at: usize, p: &[u8]) -> bool
    ensures { result ≡ starts_with p.now (drop at t.now) }
{
    starts_with(skip(t, at), p)
}

// Whether two texts are equal.
pub fn equals(a: &[u8], b: &[u8]) -> bool
    ensures { result ≡ eql a.now b.now }
{
    a == b
}
