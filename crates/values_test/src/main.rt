// Runs the definitions' values: all cosines, longitude differences, then each case of standard input, and writes the answers.
// A case is a letter for its kind, a text, '#' and a line feed. tests/values.py writes the cases
// and, from other sources, the answers. What can't be written of a case or a table is left out.

#![tactic(auto)]

ghost use Rattle.std.specs.Prelude.{◌≤◌, length, IfOk};

use buffer::NoRoom;
use coordinates::Place;
use std::fmt::Display;
use std::io;

// How long an input may be.
const MOST: usize = 65536;

// Longitudes around the date line, half way round from it, and at the ends of i32.
const LONGITUDES: [i32; 16] = [
    -2_147_483_648,
    -1_900_000_000,
    -1_800_000_001,
    -1_800_000_000,
    -1_799_999_999,
    -1_799_900_000,
    -900_000_000,
    -1,
    0,
    1,
    900_000_001,
    1_799_900_000,
    1_799_999_999,
    1_800_000_000,
    1_800_000_001,
    2_147_483_647,
];

// What a text writes, or that it is at fault.
fn print_value<T: Display + Drop>(rt: &impl Print, value: Option<T>) -> io::Result<()> {
    match value {
        Some(value) => rt.print(value),
        None => rt.print("fault"),
    }
}

// The words of a number, which stand after a space: its value, and its words written anew.
fn print_number(rt: &impl Print, text: &[u8]) -> io::Result<()> {
    let value = spoken::read_number(text, 0).value;
    let mut words = [0u8; 256];
    let end = spoken::write_number(&mut words, 0, value);
    print_words(rt, value, &words, end)
}

fn print_duration(rt: &impl Print, text: &[u8]) -> io::Result<()> {
    let value = spoken::read_duration(text, 0).value;
    let mut words = [0u8; 512];
    let end = spoken::write_duration(&mut words, 0, value);
    print_words(rt, value, &words, end)
}

fn print_words(
    rt: &impl Print,
    value: u32,
    words: &[u8],
    end: Result<usize, NoRoom>,
) -> io::Result<()>
    requires { IfOk end (λ n. n ≤ length words.now) }
{
    print!(rt; "{value} ")?;
    match end {
        Ok(end) => rt.write_all(&words[..end]),
        Err(NoRoom) => rt.print("no room"),
    }
}

fn print_inclusion(rt: &impl Print, holds: Option<bool>) -> io::Result<()> {
    rt.print(match holds {
        Some(true) => "inside",
        Some(false) => "outside",
        None => "fault",
    })
}

// A place and a shape, with ';' between: whether the shape is one, and whether it holds the place.
fn print_shape(rt: &impl Print, kind: u8, case: &[u8]) -> io::Result<()> {
    let (pair, shape) = split_at_byte(case, b';');
    let place = coordinates::read_pair(pair).unwrap_or(Place { lat: 0, lon: 0 });
    if kind == b'C' {
        return print_inclusion(rt, circle::circle_holds(shape, place));
    }
    if polygon::is_polygon(shape) {
        rt.print("polygon ")?;
    }
    print_inclusion(rt, polygon::polygon_holds(shape, place))
}

// What stands in a text before the first of a byte, and what stands after it: nothing where it isn't there.
fn split_at_byte(text: &[u8], byte: u8) -> (&[u8], &[u8])
    ensures { length result.1.now ≤ length text.now }
{
    match text.iter().position(|b| *b == byte) {
        Some(at) => (&text[..at], &text[at + 1..]),
        None => (text, &[]),
    }
}

fn print_case(rt: &impl Print, kind: u8, text: &[u8]) -> io::Result<()> {
    match kind {
        b'T' => print_value(rt, time::read_time(text))?,
        b'N' => print_number(rt, text)?,
        b'D' => print_duration(rt, text)?,
        b'A' => print_value(rt, coordinates::read_latitude(text))?,
        b'O' => print_value(rt, coordinates::read_longitude(text))?,
        b'R' => print_value(rt, coordinates::read_radius(text))?,
        _ => print_shape(rt, kind, text)?,
    }
    println!(rt)
}

fn print_cases(rt: &impl Print, input: &[u8]) -> io::Result<()> {
    let mut rest = input;
    while let Some((kind, cases)) = rest.split_first() {
        let (text, after) = split_at_byte(cases, b'#');
        let _ = print_case(rt, *kind, text);
        rest = after.get(1..).unwrap_or(&[]); // behind the line feed
    }
    Ok(())
}

fn print_cosines(rt: &impl Print) {
    for i in 0..901 {
        let _ = rt.println(circle::cosine(i));
    }
}

// How far apart any two of the longitudes are, for circles.
fn print_longitudes(rt: &impl Print) {
    for a in LONGITUDES {
        for b in LONGITUDES {
            let _ = rt.println(circle::longitude_apart(a, b));
        }
    }
}

fn main(rt: HostRuntime) {
    print_cosines(&rt);
    print_longitudes(&rt);
    let mut buffer = [0u8; MOST];
    let _ = match input::read_whole_input(&mut rt.reader(), &mut buffer) {
        Ok(input) if input.more => println!(rt; "input over {MOST} bytes"),
        Ok(input) => print_cases(&rt, input.bytes),
        Err(_) => println!(rt; "input can't be read"),
    };
}
