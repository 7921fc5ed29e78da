// Reads one CAP document from standard input and writes for each part whether the place given as arguments is inside it, and why. A line that can't be
// written is left out.

#![tactic(auto)]

use coordinates::Place;
use document::Refusal;
use parts::{PlaceError, ShapeAt, ShapeKind, Why};
use std::env::Args;
use std::io::ErrorKind;
use std::{env, io};

fn print_refusal(rt: &impl Print, refusal: Refusal) -> io::Result<()> {
    println!(rt; "refused {} at {}", u8::from(refusal.fault), refusal.offset)
}

// Writes which shape holds the place.
fn print_inside(rt: &impl Print, shape: ShapeAt) -> io::Result<()> {
    let kind = match shape.kind {
        ShapeKind::Polygon => "polygon",
        ShapeKind::Circle => "circle",
    };
    println!(rt; "inside: area {}, {kind} {}", shape.area, shape.position)
}

// Writes the answer of a part.
fn print_part(rt: &impl Print, document: &[u8], part: usize, place: Place) -> io::Result<()> {
    match parts::cap_why(document, part, place) {
        Ok(Why::Inside(shape)) => print_inside(rt, shape),
        Ok(Why::Outside(1)) => println!(rt; "outside: 1 shape"),
        Ok(Why::Outside(count)) => println!(rt; "outside: {count} shapes"),
        Ok(Why::NoShape) => println!(rt; "no shape"),
        Err(PlaceError::NotThere) => println!(rt; "refused 21 at 0"),
        Err(PlaceError::OutOfRange) => println!(rt; "refused 6 at 0"),
        Err(PlaceError::Document(refusal)) => print_refusal(rt, refusal),
    }
}

// Writes the answers of all parts, or of part 0 where there are none; or the refusal of the document.
fn print_answers(rt: &impl Print, document: &[u8], place: Place) -> io::Result<()> {
    match document::check_document(document) {
        Ok(0) => print_part(rt, document, 0, place),
        Ok(total) => {
            for part in 1..=total {
                let _ = print_part(rt, document, part, place);
            }
            Ok(())
        }
        Err(refusal) => print_refusal(rt, refusal),
    }
}

fn answer(rt: &HostRuntime, place: Place) -> io::Result<()> {
    let mut buffer = [0u8; document::MAX_LENGTH + 1]; // one byte more than a document may have: what follows can't change the answer
    match input::read_whole_input(&mut rt.reader(), &mut buffer) {
        Ok(input) => print_answers(rt, input.bytes, place),
        Err(_) => println!(rt; "input can't be read"),
    }
}

// The place that two arguments name, if there are two and they name one.
fn place_of(mut arguments: Args) -> Option<Place> {
    let _program = arguments.next()?;
    let latitude = arguments.next()?;
    let longitude = arguments.next()?;
    if arguments.next().is_some() {
        return None;
    }
    Some(Place {
        lat: coordinates::read_latitude(latitude.as_bytes())?,
        lon: coordinates::read_longitude(longitude.as_bytes())?,
    })
}

// Arguments that aren't text are no place either; an error is that memory ran out.
fn main(rt: HostRuntime) -> io::Result<()> {
    let place = match env::args(&rt) {
        Ok(arguments) => place_of(arguments),
        Err(e) if e.kind() == ErrorKind::InvalidData => None,
        Err(e) => return Err(e),
    };
    let _ = match place {
        Some(place) => answer(&rt, place),
        None => {
            println!(rt;
                "usage: inside LATITUDE LONGITUDE < DOCUMENT (degrees, south and west negative, at most seven decimals)"
            )
        }
    };
    Ok(())
}
