// An edge and a place: products of differences by sign and magnitude, and what the edge says of the place.
ghost use Rattle.std.specs.Prelude.{◌≡◌, ◌-ℤ◌, ◌*ℤ◌};
ghost use Rattle.std.specs.Int.Signed.{lt_z};
ghost use Rattle.integers.specs.Magnitude.{less_by};
ghost use Rattle.polygon.specs.Polygon.{between, east_of, north_of};
ghost use Rattle.polygon.specs.Edges.{value_of, in_box, crossed_by, edge_of, plus_of};
ghost use Rattle.polygon.specs.Skips.{on_one_side};

use coordinates::Place;

// A product by its sign and magnitude. Kept: docs/TRACE.md has edge products compared so, by `less_by`.
#[derive(Clone, Copy)]
struct Product {
    negative: bool,
    magnitude: u64,
}

// What edges say of a place: it lies on one of them, and an odd number of them cross east of it.
#[derive(Clone, Copy)]
pub struct Tally {
    pub on: bool,
    pub crossed: bool,
}

// The order of two numbers by sign and magnitude: s and t say that they are negative, and may say either of 0.
fn less_by(s: bool, m: u64, t: bool, n: u64) -> bool
    ensures { result ≡ less_by s m t n }
{
    match (s, t) {
        (true, true) => n < m,
        (true, false) => 0 < m || 0 < n,
        (false, true) => false,
        (false, false) => m < n,
    }
}

// Whether one product is less than another.
fn is_less(p: Product, q: Product) -> bool
    ensures { result ≡ lt_z (value_of p) (value_of q) }
{
    less_by(p.negative, p.magnitude, q.negative, q.magnitude)
}

// The product of two differences of coordinates: a - b times c - d. A difference is below 2^32 either way, so that the magnitude fits 64 bits.
fn product_of(a: i32, b: i32, c: i32, d: i32) -> Product
    ensures { value_of result ≡ (a -ℤ b) *ℤ (c -ℤ d) }
{
    let negative = (a < b) != (c < d);
    let magnitude = coordinates::distance(a, b) * coordinates::distance(c, d);
    Product {
        negative,
        magnitude,
    }
}

// The place's way east of a times the edge's way north.
fn east_of(a: Place, b: Place, p: Place) -> Product
    ensures { value_of result ≡ east_of a b p }
{
    product_of(p.lon, a.lon, b.lat, a.lat)
}

// The edge's way east times the place's way north of a.
fn north_of(a: Place, b: Place, p: Place) -> Product
    ensures { value_of result ≡ north_of a b p }
{
    product_of(b.lon, a.lon, p.lat, a.lat)
}

// Whether z lies between a and b, in either order.
fn between(a: i32, b: i32, z: i32) -> bool
    ensures { result ≡ between a b z }
{
    a <= z && z <= b || b <= z && z <= a
}

// Whether the place lies in the box that has a and b as corners.
fn in_box(a: Place, b: Place, p: Place) -> bool
    ensures { result ≡ in_box a b p }
{
    between(a.lat, b.lat, p.lat) & between(a.lon, b.lon, p.lon)
}

// Whether an edge from latitude a to b crosses latitude z strictly east: `less` where the east product is less than the north product, `more` where it is more.
fn is_crossed(a: i32, b: i32, z: i32, less: bool, more: bool) -> bool
    ensures { result ≡ crossed_by a b z less more }
{
    ((a <= z) & (z < b) & less) | ((b <= z) & (z < a) & more)
}

// What the edge from a to b says of the place p: off the line through a and b it isn't on the edge, and on that line the edge doesn't cross strictly east.
fn edge_of(a: Place, b: Place, p: Place) -> Tally
    ensures { result ≡ edge_of a b p }
{
    let east = east_of(a, b, p);
    let north = north_of(a, b, p);
    let less = is_less(east, north);
    let more = is_less(north, east);
    if less | more {
        Tally {
            on: false,
            crossed: is_crossed(a.lat, b.lat, p.lat, less, more),
        }
    } else {
        Tally {
            on: in_box(a, b, p),
            crossed: false,
        }
    }
}

// What edges a and edges b say together: on either of them, and an odd number of crossings.
fn plus(a: Tally, b: Tally) -> Tally
    ensures { result ≡ plus_of a b }
{
    Tally {
        on: a.on || b.on,
        crossed: a.crossed != b.crossed,
    }
}

// Whether the latitudes a and b both lie above z, or both below it.
fn on_one_side(a: i32, b: i32, z: i32) -> bool
    ensures { result ≡ on_one_side a b z }
{
    z < a && z < b || a < z && b < z
}

// The sum of what edges say of the place p, with the edge from a to b. An edge with both ends on one side of the place's latitude adds nothing, so that it
// is skipped before any product is formed.
pub fn add_edge(sum: Tally, a: Place, b: Place, p: Place) -> Tally
    ensures { result ≡ plus_of sum (edge_of a b p) }
{
    if on_one_side(a.lat, b.lat, p.lat) {
        return sum;
    }
    plus(sum, edge_of(a, b, p))
}
