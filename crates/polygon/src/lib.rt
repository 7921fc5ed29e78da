// Polygons: their texts, and whether a place lies inside.

#![tactic(auto)]

ghost use Rattle.std.specs.Prelude.{◌≡◌};
ghost use Rattle.coordinates.specs.declared.Place.{Place};
ghost use Rattle.text.specs.Answers.{giving};
ghost use Rattle.coordinates.specs.Answers.{inclusion_answer};
ghost use Rattle.polygon.specs.Edges.{edge_of, plus_of};
ghost use Rattle.polygon.specs.Polygon.{is_polygon, polygon_of, polygon_holds};
ghost use Rattle.polygon.specs.Ring.{closes, ComputesEdge, over_edges, walk_answer};

use coordinates::Place;

mod edges;
mod pairs;

use edges::Tally;

// Whether a text is a polygon: at least 4 pairs, the last equal to the first.
pub fn is_polygon(text: &[u8]) -> bool
    ensures { result ≡ is_polygon text.now }
{
    walk(text, (), |(), _, _| ()).is_some()
}

// Whether the polygon that a text writes holds a place: on an edge, or with an odd number of edges that cross east of it.
pub fn polygon_holds(text: &[u8], place: Place) -> Option<bool>
    ensures { inclusion_answer result ≡ polygon_holds text.now place }
{
    let none = Tally {
        on: false,
        crossed: false,
    };
    let sum = walk(text, none, |sum, a, b| edges::add_edge(sum, a, b, place))?;
    Some(sum.on | sum.crossed)
}

// What `step` makes of `none` at each edge in turn of the polygon that a text writes. Each pair takes a byte, so that their count fits.
fn walk<T: Copy, F: Fn(T, Place, Place) -> T>(text: &[u8], none: T, step: F) -> Option<T>
    requires { F.IsAlwaysCallable step }
    ensures { (h : T → Place → Place → T) → ComputesEdge (F.post step) h → walk_answer result ≡ giving (over_edges h none) (polygon_of text.now) }
{
    let Ok(Some((first, start))) = pairs::next_pair(text, 0) else {
        return None;
    };
    let mut last = first;
    let mut count: usize = 1;
    let mut sum = none;
    let mut at = start;
    while let Some((vertex, end)) = pairs::next_pair(text, at).ok()? {
        sum = step(sum, last, vertex);
        last = vertex;
        count += 1;
        at = end;
    }
    if is_closed(count, first, last) {
        Some(sum)
    } else {
        None
    }
}

// Whether `count` places from `first` to `last` are a closed ring.
fn is_closed(count: usize, first: Place, last: Place) -> bool
    ensures { result ≡ closes count first last }
{
    4 <= count && first == last
}
