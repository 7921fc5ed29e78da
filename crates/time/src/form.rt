// The form of a time, and the numbers that a text of the form writes.
ghost use Rattle.std.specs.Prelude.{◌≡◌, ◌+◌, ◌≤◌, ◌<◌, length};
ghost use Rattle.std.specs.List.{list_all, zip};
ghost use Rattle.time.specs.Digits.{digit_value};
ghost use Rattle.time.specs.Time.{form, is_sign, is_form_byte, has_form, digits_at, stamp_of};

use crate::{FORM_LENGTH, Stamp};

// Whether a byte is the sign of an offset.
fn is_sign(b: u8) -> bool
    ensures { result ≡ is_sign b }
{
    matches!(b, b'+' | b'-')
}

// Whether the byte b is what the form's byte f asks: d a digit, s a sign, another byte itself.
fn is_form_byte(f: u8, b: u8) -> bool
    ensures { result ≡ is_form_byte f b }
{
    match f {
        b'd' => text::is_digit(b),
        b's' => is_sign(b),
        _ => b == f,
    }
}

// Whether each byte of a text is what the form asks there.
fn is_all_asked(form: &[u8], text: &[u8]) -> bool
    ensures { result ≡ list_all (λ p. is_form_byte p.0 p.1) (zip form.now text.now) }
{
    form.iter().zip(text).all(|(f, b)| is_form_byte(*f, *b))
}

// Whether a text has the form of a time.
pub fn has_form(text: &[u8; FORM_LENGTH]) -> bool
    ensures { result ≡ has_form form text.now }
{
    is_all_asked(b"dddd-dd-ddTdd:dd:ddsdd:dd", text)
}

// A digit's value; 0 for a byte below the digits.
fn digit(b: u8) -> u64
    ensures { (result ≡ digit_value b) × (result ≤ 207) }
{
    u64::from(b.saturating_sub(b'0'))
}

// The number that two digits write.
fn two_digits(text: &[u8; FORM_LENGTH], at: usize) -> u64
    requires { at + 1 < FORM_LENGTH }
    ensures { (result ≡ digits_at at 2 text.now) × (result ≤ 2277) }
{
    10 * digit(text[at]) + digit(text[at + 1])
}

// The numbers that a text of the form writes.
pub fn stamp_of(text: &[u8; FORM_LENGTH]) -> Stamp
    ensures { result ≡ stamp_of text.now }
{
    Stamp {
        year: 100 * two_digits(text, 0) + two_digits(text, 2),
        month: two_digits(text, 5),
        day: two_digits(text, 8),
        hour: two_digits(text, 11),
        minute: two_digits(text, 14),
        second: two_digits(text, 17),
        west: text[19] == b'-',
        offset_hour: two_digits(text, 20),
        offset_minute: two_digits(text, 23),
    }
}
