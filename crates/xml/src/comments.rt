// Comments.
ghost use Rattle.std.specs.Prelude.{◌≡◌};
ghost use Rattle.xml.specs.Comments.{comment_error, comment_text, comment};

use crate::bytes::is_control;
use crate::faults::faulty;
use crate::{CommentError, ContentError};

impl From<ContentError> for CommentError {
    ghost from_gives = { λ e r. r ≡ comment_error e };

    fn from(e: ContentError) -> CommentError {
        match e {
            ContentError::Fault(_) => CommentError::Fault,
            ContentError::Unended => CommentError::Unended,
        }
    }
}

// Where what stands in a comment ends, whose opening ends at an offset.
fn read_comment_text(s: &[u8], at: usize) -> Result<usize, ContentError>
    ensures { result ≡ comment_text s.now at }
{
    for i in at..s.len() {
        if text::starts_at(s, i, b"-->") {
            return Ok(i);
        }
        if is_control(s[i]) | text::starts_at(s, i, b"--") {
            return Err(faulty(s, i, b"-->"));
        }
    }
    Err(ContentError::Unended)
}

// The offset after the comment whose opening ends at an offset.
#[tactic(auto, unfolding(crate::specs::Comments::comment))]
pub fn read_comment(s: &[u8], at: usize) -> Result<usize, CommentError>
    ensures { result ≡ comment s.now at }
{
    let end = read_comment_text(s, at)?;
    Ok(end + 3)
}
