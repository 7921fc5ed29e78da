// Parts of CAP documents: their sheets, and whether a place is inside one, and why.

#![tactic(auto)]

ghost use Rattle.std.specs.Prelude.{◌≡◌, ℕ};
ghost use Rattle.text.specs.Answers.{giving};
ghost use Rattle.parts.specs.Elements.{look_up, lookup_answer};
ghost use Rattle.parts.specs.Sheets.{cap_sheet, sheet_answer};
ghost use Rattle.parts.specs.Places.{cap_place, place_answer, place_answer_by};
ghost use Rattle.parts.specs.Reasons.{side_by, cap_why, why_answer, why_answer_by};

use coordinates::Place;
use document::Refusal;
use sheet::{CapFacts, Span};

mod areas; // areas.rt: polygons and circles
mod lasting; // lasting.rt: how long a part lasts
mod reading; // reading.rt: one reading of a document
mod sheets; // sheets.rt: the sheet of a part
mod texts; // texts.rt: where the texts of a sheet stand

// The sheet of a part, with its sender and name as parts of the document.
#[derive(Clone, Copy)]
pub struct CapSheet {
    pub facts: CapFacts,
    pub sender: Span,
    pub name: Span,
}

// Why there is no sheet: the part isn't there, its lasting time is out of range, or the document is refused.
#[derive(Clone, Copy, Debug, PartialEq, Eq)]
pub enum SheetError {
    NotThere,
    OutOfRange,
    Document(Refusal),
}

impl From<Refusal> for SheetError {
    ghost use Rattle.parts.specs.declared.SheetError.TheVariants.{Document};

    ghost from_gives = { λ refusal e. e ≡ Document refusal };

    fn from(refusal: Refusal) -> SheetError {
        SheetError::Document(refusal)
    }
}

// What a shape is.
#[derive(Clone, Copy, Debug, PartialEq, Eq)]
pub enum ShapeKind {
    Polygon,
    Circle,
}

// Which shape of a part: the position of its area among the part's areas, and its own among the shapes of its kind in that area, both from 1.
#[derive(Clone, Copy, Debug, PartialEq, Eq)]
pub struct ShapeAt {
    pub area: usize,
    pub kind: ShapeKind,
    pub position: usize,
}

// What a part says of a place.
#[derive(Clone, Copy, Debug, PartialEq, Eq)]
pub enum Side {
    Inside,
    Outside,
    NoShape,
}

// Why a part holds a place, by the first shape that does, or doesn't, by the number of its shapes.
#[derive(Clone, Copy, Debug, PartialEq, Eq)]
pub enum Why {
    Inside(ShapeAt),
    Outside(usize),
    NoShape,
}

// Why a part says nothing of a place: the part isn't there, the place is out of range, or the document is refused.
#[derive(Clone, Copy, Debug, PartialEq, Eq)]
pub enum PlaceError {
    NotThere,
    OutOfRange,
    Document(Refusal),
}

impl From<Refusal> for PlaceError {
    ghost use Rattle.parts.specs.declared.PlaceError.TheVariants.{Document};

    ghost from_gives = { λ refusal e. e ≡ Document refusal };

    fn from(refusal: Refusal) -> PlaceError {
        PlaceError::Document(refusal)
    }
}

// The part asked for, by the number of parts; part 0 is there where there are none.
#[tactic(auto, unfolding(crate::specs::Elements::look_up))]
pub fn look_up(part: usize, total: usize) -> Option<usize>
    ensures { lookup_answer result ≡ look_up part total }
{
    if (part == 0 && total == 0) || (1 <= part && part <= total) {
        return Some(part);
    }
    None
}

// The sheet of a part of a document.
#[tactic(auto, using(crate::proofs::Meant::reading_drawn, crate::proofs::Meant::reading_limit, crate::proofs::Meant::reading_refused, crate::proofs::Results::err_is))]
pub fn cap_sheet(s: &[u8], part: usize) -> Result<CapSheet, SheetError>
    ensures { sheet_answer result ≡ cap_sheet part s.now }
{
    let (total, facts) = texts::read_facts(s, part)?;
    sheets::sheet_of_part(s, part, total, &facts)
}

// Why a place is inside a part of a document or outside it.
#[tactic(auto, using(crate::proofs::Meant::view_why, crate::proofs::Meant::view_refused, crate::proofs::Results::err_is))]
pub fn cap_why(s: &[u8], part: usize, place: Place) -> Result<Why, PlaceError>
    ensures { why_answer result ≡ cap_why part place s.now }
{
    let (total, shapes) = areas::read_shapes(s, part, place)?;
    areas::why_in_part(part, total, &shapes, place)
}

// What a part says of a place, by the reason. An error of any type is handed on as it is.
pub fn side_of<E>(why: Result<Why, E>) -> Result<Side, E>
    ensures { (number offset : E → ℕ) → place_answer_by number offset result ≡ giving side_by (why_answer_by number offset why) }
{
    match why? {
        Why::Inside(_) => Ok(Side::Inside),
        Why::Outside(_) => Ok(Side::Outside),
        Why::NoShape => Ok(Side::NoShape),
    }
}

// Whether a place is inside a part of a document: what the reason says.
#[tactic(auto, using(crate::proofs::Meant::side_said, crate::proofs::Meant::why_place))]
pub fn cap_place(s: &[u8], part: usize, place: Place) -> Result<Side, PlaceError>
    ensures { place_answer result ≡ cap_place part place s.now }
{
    side_of(cap_why(s, part, place))
}
