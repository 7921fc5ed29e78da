// Decimals at an offset of a text: digits, optionally a point and digits; and with a sign, coordinates.
ghost use Rattle.std.specs.Prelude.{◌≡◌, ◌+◌, ◌*◌, ◌^◌, ◌<◌, ◌≤◌, true, length, drop};
ghost use Rattle.integers.specs.Magnitude.{signed};
ghost use Rattle.coordinates.specs.Decimal.{leads, decimal_at};
ghost use Rattle.coordinates.specs.Place.{sign_length, coordinate_at};
ghost use Rattle.coordinates.specs.Run.{run_of};

// Whether the byte `b` stands at `at`.
pub fn leads(s: &[u8], at: usize, b: u8) -> bool
    ensures value { result ≡ leads b (drop at s.now) }
    ensures within { result ≡ true → at < length s.now }
{
    matches!(s.get(at), Some(c) if *c == b)
}

// The number that the digits from `at` on write and the offset after them, if they are at most `most`.
fn digits_at(s: &[u8], at: usize, most: usize) -> Option<(u64, usize)>
    requires { most ≤ 7 }
    ensures { result ≡ run_of most at (drop at s.now) }
{
    let Some(rest) = s.get(at..) else {
        return Some((0, at));
    };
    let mut value: u64 = 0;
    for (i, b) in rest.iter().enumerate() {
        if !text::is_digit(*b) {
            return Some((value, at + i));
        }
        if i == most {
            return None;
        }
        value = value * 10 + u64::from(*b - b'0');
    }
    Some((value, at + rest.len()))
}

// A power of ten. By cases and not from a table, which the compiler would build on the stack at each use.
// Kept: with `10u64.pow(..)` reading a polygon's text takes a sixth more instructions.
fn power_of_ten(power: usize) -> u64
    requires { power ≤ 7 }
    ensures { result ≡ 10 ^ power }
{
    match power {
        0 => 1,
        1 => 10,
        2 => 100,
        3 => 1_000,
        4 => 10_000,
        5 => 100_000,
        6 => 1_000_000,
        _ => 10_000_000,
    }
}

// A number of at most 7 digits times a power of ten.
fn scale(value: u64, power: usize) -> u64
    requires { (value < 10_000_000) × (power ≤ 7) }
    ensures { (result ≡ value * 10 ^ power) × (result ≤ 100_000_000_000_000) }
{
    value * power_of_ten(power)
}

// The decimal at `at` and the offset after it: 1 to `whole` digits, optionally a point and 1 to `places` digits, in units of the last of these decimal
// places. Inlined, as it is called for each coordinate of a polygon, with numbers of digits that are known there.
#[inline]
pub fn decimal_at(s: &[u8], at: usize, whole: usize, places: usize) -> Option<(u64, usize)>
    requires { (whole ≤ 7) × (places ≤ 7) }
    ensures { result ≡ decimal_at whole places at (drop at s.now) }
{
    let (units, point) = digits_at(s, at, whole)?;
    if point == at {
        return None;
    }
    let value = scale(units, places);
    if !leads(s, point, b'.') {
        return Some((value, point));
    }
    let start = point + 1;
    let (parts, end) = digits_at(s, start, places)?;
    if end == start {
        return None;
    }
    Some((value + scale(parts, places - (end - start)), end))
}

// The offset after a sign at `at`, or `at` where none stands.
fn after_sign(s: &[u8], at: usize) -> usize
    ensures { result ≡ at + sign_length (drop at s.now) }
{
    if leads(s, at, b'+') || leads(s, at, b'-') {
        at + 1
    } else {
        at
    }
}

// A magnitude with its sign.
fn with_sign(minus: bool, magnitude: u64) -> i32
    requires { magnitude ≤ 1_800_000_000 }
    ensures { result ≡ signed minus magnitude }
{
    let units = magnitude as i32;
    if minus { -units } else { units }
}

// The coordinate at `at` and the offset after it: an optional sign, 1 to 3 digits, optionally a point and 1 to 7 digits, at most `limit` either way.
pub fn coordinate_at(s: &[u8], at: usize, limit: u64) -> Option<(i32, usize)>
    requires { limit ≤ 1_800_000_000 }
    ensures { result ≡ coordinate_at limit at (drop at s.now) }
{
    let minus = leads(s, at, b'-');
    let (magnitude, end) = decimal_at(s, after_sign(s, at), 3, 7)?;
    if limit < magnitude {
        return None;
    }
    Some((with_sign(minus, magnitude), end))
}
