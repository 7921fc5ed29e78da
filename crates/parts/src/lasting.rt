// How long a part lasts.
ghost use Rattle.std.specs.Prelude.{◌≡◌};
ghost use Rattle.text.specs.Answers.{gives, IfGiven};
ghost use Rattle.time.specs.Time.{time_answer};
ghost use Rattle.time.specs.Range.{InstantRange};
ghost use Rattle.parts.specs.Sheets.{lasts_from, lasts_answer};

use sheet::Lasting;

// The longest lasting time, in seconds.
const LONGEST: i64 = 31_536_000;

// How long it is from one instant to another.
fn lasts_between(start: i64, end: i64) -> Option<Lasting>
    requires { InstantRange start × InstantRange end }
    ensures { lasts_answer result ≡ lasts_from (gives start) (gives end) }
{
    let seconds = end - start;
    if (1..=LONGEST).contains(&seconds) {
        return Some(Some(seconds as u32));
    }
    None
}

// How long a part lasts that starts at one time and expires at another.
pub fn lasts_from(start: Option<i64>, expires: Option<i64>) -> Option<Lasting>
    requires { IfGiven InstantRange (time_answer start) × IfGiven InstantRange (time_answer expires) }
    ensures { lasts_answer result ≡ lasts_from (time_answer start) (time_answer expires) }
{
    let Some(end) = expires else {
        return Some(None);
    };
    lasts_between(start?, end)
}
