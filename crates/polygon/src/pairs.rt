// The pairs of a text, one after the other.
ghost use Rattle.std.specs.Prelude.{◌≡◌, drop};
ghost use Rattle.text.specs.Tokens.{on_token};
ghost use Rattle.polygon.specs.Next.{next_of};

use coordinates::Place;

// Something stands in a text that is no pair.
#[derive(Clone, Copy, Debug, PartialEq, Eq)]
pub struct NotPair;

// Whether a token goes on at an offset.
fn on_token(s: &[u8], at: usize) -> bool
    ensures { result ≡ on_token (drop at s.now) }
{
    matches!(s.get(at), Some(b) if !text::is_space(*b))
}

// The pair from `at` on, after white space, which must follow it too, and the offset after it; none where the text ends there. Inlined, as each walk
// calls it for each pair.
#[inline]
pub fn next_pair(s: &[u8], at: usize) -> Result<Option<(Place, usize)>, NotPair>
    ensures { result ≡ next_of s.now at }
{
    let start = text::skip_space(s, at);
    if s.len() <= start {
        return Ok(None);
    }
    let Some((place, end)) = coordinates::leading_pair(s, start) else {
        return Err(NotPair);
    };
    if on_token(s, end) {
        return Err(NotPair);
    }
    Ok(Some((place, end)))
}
