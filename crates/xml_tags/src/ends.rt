// Where tags and their names end.
ghost use Rattle.std.specs.Prelude.{◌≡◌, ◌+◌, None, drop};
ghost use Rattle.xml_tags.specs.Tags.{tag_end, name_end, tail};

use crate::Tail;
use crate::bytes::is_tag_byte;

// Where the tag that goes on at an offset, outside quotes, ends: at the first ">" outside quotes.
pub fn tag_end(s: &[u8], at: usize) -> Option<usize>
    ensures { result ≡ tag_end None at (drop at s.now) }
{
    let mut quote: Option<u8> = None;
    for i in at..s.len() {
        let b = s[i];
        match quote {
            Some(open) => {
                if b == open {
                    quote = None;
                }
            }
            None => {
                if b == b'>' {
                    return Some(i);
                }
                if (b == b'"') | (b == b'\'') {
                    quote = Some(b);
                }
            }
        }
    }
    None
}

// Where the name that starts at an offset ends.
pub fn name_end(s: &[u8], at: usize) -> usize
    ensures { result ≡ name_end s.now at }
{
    let mut i = at;
    while i < s.len() {
        if is_tag_byte(s[i]) {
            i += 1;
        } else {
            return i;
        }
    }
    i
}

// What ends a tag from an offset on, if white space and ">" or "/>" stand there.
#[tactic(auto, using(text::proofs::Parts::starts_at_le), unfolding(crate::specs::Tags::tail))]
pub fn read_tail(s: &[u8], at: usize) -> Option<Tail>
    ensures { result ≡ tail s.now at }
{
    let i = text::skip_space(s, at);
    if text::starts_at(s, i, b">") {
        return Some(Tail::Open(i + 1));
    }
    if text::starts_at(s, i, b"/>") {
        return Some(Tail::Empty(i + 2));
    }
    None
}
