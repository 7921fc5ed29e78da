// What has a fault, by whether its end follows.
ghost use Rattle.std.specs.Prelude.{◌≡◌, cond, drop};
ghost use Rattle.text.specs.Parts.{starts_with};
ghost use Rattle.xml.specs.declared.ContentError.TheVariants.{Fault, Unended};
ghost use Rattle.xml.specs.Searches.{holds};

use crate::ContentError;

// Whether p stands anywhere from `at` on.
fn holds(s: &[u8], at: usize, p: &[u8]) -> bool
    ensures { result ≡ holds (starts_with p.now) (drop at s.now) }
{
    for i in at..s.len() {
        if text::starts_at(s, i, p) {
            return true;
        }
    }
    false
}

// What has its first fault at an offset, and ends with p.
pub fn faulty(s: &[u8], at: usize, p: &[u8]) -> ContentError
    ensures { result ≡ cond (holds (starts_with p.now) (drop at s.now)) (Fault at) Unended }
{
    if holds(s, at, p) {
        ContentError::Fault(at)
    } else {
        ContentError::Unended
    }
}
