// Places and the decimals that write them: latitude and longitude in units of 1e-7 degree, radii in metres.

#![tactic(auto)]

ghost use Rattle.std.specs.Prelude.{◌≡◌, nat_abs, ◌-ℤ◌, ◌≤◌, drop};
ghost use Rattle.coordinates.specs.Decimal.{radius_of};
ghost use Rattle.coordinates.specs.Answers.{degrees_answer, pair_answer, radius_answer};
ghost use Rattle.coordinates.specs.Place.{latitude_limit, longitude_limit, within, in_range, degrees_of, pair_at, pair_of};

mod scan;

// The limits of latitude and longitude, either way, in units of 1e-7 degree.
const LATITUDE_LIMIT: u64 = 900_000_000;

const LONGITUDE_LIMIT: u64 = 1_800_000_000;

// The greatest radius, in metres.
const RADIUS_LIMIT: u64 = 20_000_000;

// A place on the grid of latitude and longitude, in units of 1e-7 degree; south and west are negative.
#[derive(Clone, Copy, Debug, PartialEq, Eq)]
pub struct Place {
    pub lat: i32,
    pub lon: i32,
}

fn is_latitude(lat: i32) -> bool
    ensures { result ≡ within latitude_limit lat }
{
    (-900_000_000..=900_000_000).contains(&lat)
}

fn is_longitude(lon: i32) -> bool
    ensures { result ≡ within longitude_limit lon }
{
    (-1_800_000_000..=1_800_000_000).contains(&lon)
}

// Whether a place is within range: 90 degrees of latitude and 180 of longitude, either way.
pub fn in_range(p: Place) -> bool
    ensures { result ≡ in_range p }
{
    is_latitude(p.lat) && is_longitude(p.lon)
}

// The difference of two coordinates, with its sign.
pub fn difference(a: i32, b: i32) -> i64
    ensures { result ≡ a -ℤ b }
{
    i64::from(a) - i64::from(b)
}

// The difference of two coordinates, without its sign.
pub fn distance(a: i32, b: i32) -> u64
    ensures { result ≡ nat_abs (a -ℤ b) }
{
    difference(a, b).unsigned_abs()
}

// The latitude that a text writes.
pub fn read_latitude(text: &[u8]) -> Option<i32>
    ensures { degrees_answer result ≡ degrees_of latitude_limit text.now }
{
    whole_text(text, LATITUDE_LIMIT)
}

// The longitude that a text writes.
pub fn read_longitude(text: &[u8]) -> Option<i32>
    ensures { degrees_answer result ≡ degrees_of longitude_limit text.now }
{
    whole_text(text, LONGITUDE_LIMIT)
}

// The coordinate that a whole text writes.
#[tactic(auto, using(crate::proofs::Coordinates::no_degrees, crate::proofs::Coordinates::degrees_part, crate::proofs::Coordinates::degrees_whole))]
fn whole_text(text: &[u8], limit: u64) -> Option<i32>
    requires { limit ≤ 1_800_000_000 }
    ensures { degrees_answer result ≡ degrees_of limit text.now }
{
    let (units, end) = scan::coordinate_at(text, 0, limit)?;
    if end != text.len() {
        return None;
    }
    Some(units)
}

// The place that a whole text writes: latitude, comma, longitude.
pub fn read_pair(text: &[u8]) -> Option<Place>
    ensures { pair_answer result ≡ pair_of text.now }
{
    let (place, next) = leading_pair(text, 0)?;
    if next != text.len() {
        return None;
    }
    Some(place)
}

// The place that stands from `at` on, latitude, comma, longitude, and the offset after it. What stands there isn't looked at.
pub fn leading_pair(text: &[u8], at: usize) -> Option<(Place, usize)>
    ensures { result ≡ pair_at at (drop at text.now) }
{
    let (lat, comma) = scan::coordinate_at(text, at, LATITUDE_LIMIT)?;
    if !scan::leads(text, comma, b',') {
        return None;
    }
    let (lon, end) = scan::coordinate_at(text, comma + 1, LONGITUDE_LIMIT)?;
    Some((Place { lat, lon }, end))
}

// The radius that a whole text writes in kilometres, in metres.
pub fn read_radius(text: &[u8]) -> Option<u32>
    ensures { radius_answer result ≡ radius_of text.now }
{
    let (metres, after) = scan::decimal_at(text, 0, 5, 3)?;
    if after != text.len() || RADIUS_LIMIT < metres {
        return None;
    }
    Some(metres as u32)
}
