// Circles: their texts, and whether a place lies inside.

#![tactic(auto)]

mod table;

ghost use Rattle.std.specs.Prelude.{◌≡◌, ◌*◌, ◌/◌, ◌≤◌, nat_abs, ◌-ℤ◌, get_or};
ghost use Rattle.coordinates.specs.Answers.{inclusion_answer};
ghost use Rattle.circle.specs.Cosine.{cosines};
ghost use Rattle.circle.specs.Circle.{cosine_at, units_of, shorter_way, latitude_apart, longitude_scaled, within_squares, around_holds, circle_of, circle_answer, circle_holds};

use coordinates::Place;

// A circle: its centre and its radius in metres.
#[derive(Clone, Copy, Debug, PartialEq, Eq)]
pub struct Circle {
    pub centre: Place,
    pub metres: u32,
}

// 360 degrees, in units of 1e-7 degree.
const FULL_TURN: u64 = 3_600_000_000;

// The greatest radius of a circle, in metres.
const MOST_METRES: u32 = 20_000_000;

// 10^6 times the cosine of a number of tenths of a degree; 0 above 90 degrees.
pub fn cosine(tenths: usize) -> u32
    ensures { result ≡ get_or cosines tenths 0 }
{
    table::COSINES.get(tenths).copied().unwrap_or(0)
}

// The cosine for a latitude, in units of 1e-7 degree, by its tenth of a degree.
fn cosine_at(lat: i32) -> u64
    ensures { (result ≡ cosine_at lat) × (result ≤ 1_000_000) }
{
    let tenths = coordinates::distance(lat, 0) / 1_000_000;
    u64::from(cosine(tenths as usize))
}

// A radius in units of 1e-7 degree.
fn units_of(metres: u32) -> u64
    requires { metres ≤ 20_000_000 }
    ensures { (result ≡ units_of metres) × (result ≤ 2_000_000_000) }
{
    u64::from(metres) * 10_000_000 / 111_195
}

// How far apart two longitudes are, by the shorter way round. One out of range is that of the meridian it comes to.
pub fn longitude_apart(a: i32, b: i32) -> u64
    ensures { result ≡ shorter_way (nat_abs (a -ℤ b)) }
{
    let one_way = coordinates::distance(a, b) % FULL_TURN;
    let other_way = FULL_TURN - one_way;
    one_way.min(other_way)
}

// A longitude difference scaled by a cosine.
fn scaled(apart: u64, cosine: u64) -> u64
    requires { (apart ≤ 1_800_000_000) × (cosine ≤ 1_000_000) }
    ensures { result ≡ apart * cosine / 1_000_000 }
{
    apart * cosine / 1_000_000
}

// Whether x² + y² is at most u². No sum is formed where x or y alone is above u, so it stays below 2^64.
fn within_squares(x: u64, y: u64, u: u64) -> bool
    requires { u ≤ 2_000_000_000 }
    ensures { result ≡ within_squares x y u }
{
    x <= u && y <= u && x * x + y * y <= u * u
}

// Whether a place lies within `u` units of a centre.
fn is_near(centre: Place, u: u64, place: Place) -> bool
    requires { u ≤ 2_000_000_000 }
    ensures { result ≡ within_squares (longitude_scaled centre place) (latitude_apart centre place) u }
{
    let x = scaled(
        longitude_apart(place.lon, centre.lon),
        cosine_at(centre.lat),
    );
    let y = coordinates::distance(place.lat, centre.lat);
    within_squares(x, y, u)
}

// Whether the circle of a centre and a radius holds a place. A radius above 20,000 km makes no circle.
pub fn around_holds(centre: Place, metres: u32, place: Place) -> Option<bool>
    ensures { inclusion_answer result ≡ around_holds centre metres place }
{
    if MOST_METRES < metres {
        return None;
    }
    Some(is_near(centre, units_of(metres), place))
}

// The circle that a text writes: a pair and a radius, with white space between, before and after.
pub fn read_circle(s: &[u8]) -> Option<Circle>
    ensures { circle_answer result ≡ circle_of s.now }
{
    let a = text::skip_space(s, 0);
    let b = text::token_end(s, a);
    let c = text::skip_space(s, b);
    let d = text::token_end(s, c);
    if text::skip_space(s, d) != s.len() {
        return None;
    }
    let centre = coordinates::read_pair(&s[a..b])?;
    let metres = coordinates::read_radius(&s[c..d])?;
    Some(Circle { centre, metres })
}

// Whether the circle of a text holds a place.
pub fn circle_holds(s: &[u8], place: Place) -> Option<bool>
    ensures { inclusion_answer result ≡ circle_holds s.now place }
{
    let circle = read_circle(s)?;
    around_holds(circle.centre, circle.metres, place)
}
