// What a place is to a part of a document, and why, as numbers.
ghost use Rattle.std.specs.Prelude.{◌≡◌, Ok};
ghost use Rattle.text.specs.Answers.{gives, giving};
ghost use Rattle.parts.specs.Places.{place_answer};
ghost use Rattle.parts.specs.Reasons.{why_answer};
ghost use Rattle.warnbox.specs.Replies.{given_or, kind_number, side_number, why_numbers};
ghost use Rattle.warnbox.specs.Sheets.{drawn_answer};

use crate::replies::Refused;
use parts::{PlaceError, ShapeKind, Side, Why};

fn side_number(side: Side) -> usize
    ensures { gives result ≡ giving side_number (place_answer (Ok side)) }
{
    match side {
        Side::Outside => 0,
        Side::Inside => 1,
        Side::NoShape => 2,
    }
}

// What is told of a side: its number.
pub fn told_side(side: Result<Side, PlaceError>) -> Result<usize, Refused>
    ensures { drawn_answer result ≡ giving side_number (place_answer side) }
{
    Ok(side_number(side?))
}

fn kind_number(kind: ShapeKind) -> usize
    ensures { result ≡ kind_number kind }
{
    match kind {
        ShapeKind::Polygon => 1,
        ShapeKind::Circle => 2,
    }
}

// The area, the kind of its shape, the shape's position, and how many shapes were tried.
fn why_numbers(why: Why) -> [usize; 4]
    ensures { gives result ≡ giving why_numbers (why_answer (Ok why)) }
{
    match why {
        Why::Inside(shape) => [shape.area, kind_number(shape.kind), shape.position, 0],
        Why::Outside(count) => [0, 0, 0, count],
        Why::NoShape => [0; 4],
    }
}

// Puts a reason's numbers where C wants them; where there is none, what is there stays.
pub fn put_why(numbers: &mut [usize; 4], why: Result<Why, PlaceError>)
    ensures { numbers.new ≡ given_or numbers.old (giving why_numbers (why_answer why)) }
{
    if let Ok(why) = why {
        *numbers = why_numbers(why);
    }
}
