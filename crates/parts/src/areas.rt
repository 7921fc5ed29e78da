// Polygons and circles of a part.
ghost use Rattle.std.specs.Prelude.{◌≡◌, OnOk};
ghost use Rattle.text.specs.Answers.{gives};
ghost use Rattle.document.specs.Elements.{fold};
ghost use Rattle.document.specs.Documents.{elements_of};
ghost use Rattle.parts.specs.Places.{asked_about};
ghost use Rattle.parts.specs.Reasons.{reason_of, why_answer};
ghost use Rattle.parts.specs.Reading.{answer_of, event_answer, most};
ghost use Rattle.parts.specs.Gathering.{shape_answer, answer_at, kind_of, with_shape, looked, seen, view_of, AtMost};
ghost use Rattle.parts.specs.Counts.{seen_more, at_most_wider};

use crate::reading::{Question, read, test};
use crate::{PlaceError, ShapeAt, ShapeKind, Why, look_up};
use coordinates::Place;
use document::{Event, Refusal};
use rules::Fault;
use schema::class;

// The shapes of the part asked for: how many areas have started, how many polygons and circles the last of them has, and how many shapes there are in
// all; and the first shape that holds the place.
#[derive(Clone, Copy)]
pub struct Shapes {
    pub areas: usize,
    pub polygons: usize,
    pub circles: usize,
    pub count: usize,
    pub first: Option<ShapeAt>,
}

// The kind of shape that a text of a class writes, if it writes one.
fn kind_of(class: usize) -> Option<ShapeKind>
    ensures { result ≡ kind_of class }
{
    match class {
        class::POLYGON => Some(ShapeKind::Polygon),
        class::CIRCLE => Some(ShapeKind::Circle),
        _ => None,
    }
}

// Whether the shape of a kind whose text starts at an offset holds a place, or the refusal of its text.
fn holds(place: Place, kind: ShapeKind, from: usize, t: &[u8]) -> Result<bool, Refusal>
    ensures { answer_of result ≡ answer_at from (shape_answer place kind t.now) }
{
    let holds = match kind {
        ShapeKind::Polygon => polygon::polygon_holds(t, place),
        ShapeKind::Circle => circle::circle_holds(t, place),
    };
    holds.ok_or(Refusal {
        fault: Fault::Shape,
        offset: from,
    })
}

impl Shapes {
    // Nothing seen yet.
    const NONE: Shapes = Shapes {
        areas: 0,
        polygons: 0,
        circles: 0,
        count: 0,
        first: None,
    };

    // A shape of a kind comes, the first that holds the place or not.
    fn add(&mut self, kind: ShapeKind, first: bool)
        requires { AtMost most self.old }
        ensures { self.new ≡ with_shape kind first self.old }
    {
        self.count += 1;
        let position = match kind {
            ShapeKind::Polygon => {
                self.polygons += 1;
                self.polygons
            }
            ShapeKind::Circle => {
                self.circles += 1;
                self.circles
            }
        };
        if first {
            self.first = Some(ShapeAt {
                area: self.areas,
                kind,
                position,
            });
        }
    }

    // An event of the part. One reading of a shape's text tests its rule and asks about the place, unless a shape before it holds the place.
    #[tactic(auto, unfolding(document::specs::Elements::fold), using(crate::proofs::Sights::text_none, crate::proofs::Sights::text_named, crate::proofs::Sights::text_first, crate::proofs::Sights::shape_kept, crate::proofs::Sights::shape_broken, crate::proofs::Results::on_ok, crate::proofs::Results::err_is))]
    fn see(&mut self, s: &[u8], place: Place, event: Event) -> Result<(), Refusal>
        requires { AtMost most self.old }
        ensures tested { answer_of result ≡ event_answer s.now event }
        ensures added { OnOk result (self.new ≡ fold (looked place) self.old (elements_of s.now event)) }
    {
        match event {
            Event::Silent | Event::Closed(_) => Ok(()),
            Event::Opened(class, _) => {
                if class == class::AREA {
                    self.areas += 1;
                    self.polygons = 0;
                    self.circles = 0;
                }
                Ok(())
            }
            Event::Text(class, from, until) => {
                let Some(kind) = kind_of(class) else {
                    return test(s, event);
                };
                if self.first.is_some() {
                    test(s, event)?;
                    self.add(kind, false);
                    return Ok(());
                }
                let first = holds(place, kind, from, text::part(s, from, until))?;
                self.add(kind, first);
                Ok(())
            }
        }
    }
}

// The shapes of a part, and which of them holds a place.
#[derive(Clone, Copy)]
struct Around {
    part: usize,
    place: Place,
}

impl Question for Around {
    type Facts = Shapes;

    ghost noted = { λ q. seen q.part q.place };

    ghost within = { AtMost };

    ghost within_more = { λ q n k f x h. seen_more n f h q.part k q.place x };

    ghost within_wider = { at_most_wider };

    #[tactic(auto, using(crate::proofs::Sights::seen_other, crate::proofs::Results::on_ok))]
    fn note(
        &self,
        s: &[u8],
        infos: usize,
        shapes: &mut Shapes,
        event: Event,
    ) -> Result<(), Refusal> {
        if infos == self.part {
            return shapes.see(s, self.place, event);
        }
        test(s, event)
    }
}

// Reads a document: its number of parts, and what the shapes of a part say of a place.
#[tactic(auto, unfolding(crate::specs::Gathering::view_of))]
pub fn read_shapes(s: &[u8], part: usize, place: Place) -> Result<(usize, Shapes), Refusal>
    ensures { answer_of result ≡ view_of part place s.now }
{
    read(s, &Around { part, place }, Shapes::NONE)
}

// The reason by what was seen.
fn why_by(shapes: &Shapes) -> Why
    ensures { why_answer (Ok result) ≡ gives (reason_of shapes.now.first shapes.now.count) }
{
    match shapes.first {
        Some(shape) => Why::Inside(shape),
        None if shapes.count == 0 => Why::NoShape,
        None => Why::Outside(shapes.count),
    }
}

// The reason for a place, by the number of parts and what was seen of the part asked for.
pub fn why_in_part(
    part: usize,
    total: usize,
    shapes: &Shapes,
    place: Place,
) -> Result<Why, PlaceError>
    ensures { why_answer result ≡ asked_about place part total (reason_of shapes.now.first shapes.now.count) }
{
    let Some(_) = look_up(part, total) else {
        return Err(PlaceError::NotThere);
    };
    if !coordinates::in_range(place) {
        return Err(PlaceError::OutOfRange);
    }
    Ok(why_by(shapes))
}
