// WARN sentences, read loosely: nothing is checked but which flags stand there.
ghost use Rattle.std.specs.Prelude.{◌≡◌};
ghost use Rattle.text.specs.Parts.{starts_with};
ghost use Rattle.sheet.specs.Reading.{after_flag, warn_of};

use crate::scan::{after, byte_after, number_after};
use sheet::WarnFacts;
use spoken::read_duration;

// Whether a flag's word, with the space in front, leads a text, and what stands after it there.
fn flag<'a>(t: &'a [u8], word: &[u8]) -> (bool, &'a [u8])
    ensures { (result.0 ≡ starts_with word.now t.now) × (result.1.now ≡ after_flag word.now t.now) }
{
    if text::starts_with(t, word) {
        return (true, after(t, word));
    }
    (false, t)
}

// A WARN sentence from its start.
pub fn warn_of(t: &[u8]) -> WarnFacts
    ensures { result ≡ warn_of t.now }
{
    let (urgent, t) = flag(after(t, b"warn alert"), b" urgent");
    let (update, t) = flag(t, b" update");
    let (cancel, t) = flag(t, b" cancel");
    let (test, t) = flag(t, b" test");
    let (event, t) = number_after(t, b", event");
    let (number, t) = number_after(t, b", number");
    let (origin, t) = number_after(t, b", origin");
    let t = after(t, b", lasts");
    let lasting = read_duration(t, 0);
    let t = text::skip(t, lasting.end);
    let (hazard, t) = byte_after(t, b", hazard");
    let (kind, t) = byte_after(t, b", kind");
    let (urgency, t) = byte_after(t, b", urgency");
    let (severity, t) = byte_after(t, b", severity");
    let (certainty, t) = byte_after(t, b", certainty");
    let (response, _) = byte_after(t, b", response");
    WarnFacts {
        urgent,
        update,
        cancel,
        test,
        event,
        number: (number % 0x1_0000) as u16,
        origin,
        lasting: lasting.value,
        hazard,
        kind,
        urgency,
        severity,
        certainty,
        response,
    }
}
