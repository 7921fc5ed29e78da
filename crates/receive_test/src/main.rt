// Feeds packets to an event table, and writes each answer and the table.
// Standard input is a run of records: a letter ('R' to receive, 'S' to sweep, 'T' to write the table, 'L' to list the running events, 'P' to ask
// about places near the date line), a clock (8 bytes), a verdict (1 byte), a length (2 bytes) and a packet. tests/receive.py writes the records
// and, by the independent model, the stored output. A line that can't be written is left out.

#![tactic(auto)]

ghost use Rattle.std.specs.Prelude.{◌<◌, length, IfSome};

use coordinates::Place;
use events::{Entry, Table};
use packet::PlaceFault;
use sheet::Found;
use std::io;

// How long an input may be.
const MOST: usize = 262144;

const KEYS: [u32; 3] = [21, 4294967295, 7];

// A place near the sound packets' circles, and one out of range.
const PLACES: [Place; 2] = [
    Place {
        lat: 351000000,
        lon: 1357000000,
    },
    Place {
        lat: 900000001,
        lon: 0,
    },
];

// Places just west of the date line, on it under both its longitudes, and at a pole.
const DATE_LINE: [Place; 4] = [
    Place {
        lat: -168000000,
        lon: 1799900000,
    },
    Place {
        lat: 0,
        lon: 1800000000,
    },
    Place {
        lat: 0,
        lon: -1800000000,
    },
    Place {
        lat: 900000000,
        lon: 1800000000,
    },
];

// What is to be done, with a letter for its kind.
#[derive(Clone, Copy)]
struct Record<'a> {
    kind: u8,
    clock: u64,
    verdict: bool,
    packet: &'a [u8],
}

fn print_refusal(rt: &impl Print, number: u8) -> io::Result<()> {
    println!(rt; "refused {number} at 0")
}

// The packet's sentence, or its refusal.
fn print_sentence(rt: &impl Print, packet: &[u8]) -> io::Result<()> {
    match packet::packet_sheet(packet) {
        Ok(facts) => output::write_sentence(&mut io::writer(rt), packet, Found::Warn(facts)),
        Err(fault) => print_refusal(rt, fault.into()),
    }
}

// Whether the packet's circle holds each of the places.
fn print_places(rt: &impl Print, packet: &[u8], places: &[Place]) {
    for place in places {
        let _ = match packet::packet_place(packet, *place) {
            Ok(true) => println!(rt; "inside"),
            Ok(false) => println!(rt; "outside"),
            Err(PlaceFault::OutOfRange) => print_refusal(rt, 6),
            Err(PlaceFault::Packet(fault)) => print_refusal(rt, fault.into()),
        };
    }
}

fn print_entry(rt: &impl Print, i: usize, entry: &Entry) -> io::Result<()> {
    let used = if entry.used != 0 { "used" } else { "free" };
    let cancelled = if entry.cancelled != 0 {
        " cancelled"
    } else {
        ""
    };
    println!(rt;
        "{i} {used} {} {} {}{cancelled} {} {} {}",
        entry.key, entry.event, entry.sequence, entry.keep_until, entry.timestamp, entry.expiry,
    )
}

// The entries that are used, or were once.
fn print_table(rt: &impl Print, table: &Table) {
    for (i, entry) in table.entries.iter().enumerate() {
        if entry.used != 0 || entry.keep_until > 0 {
            let _ = print_entry(rt, i, entry);
        }
    }
}

// How many events run at a time, and each of them.
fn print_running(rt: &impl Print, table: &Table, time: u64) {
    let running = events::list_running(*table, time);
    let _ = println!(rt; "{}", running.count);
    for event in running.events.iter().take(running.count) {
        let _ = println!(rt; "{} {}", event.key, event.event);
    }
}

fn take_record(rt: &impl Print, table: &mut Table, record: Record<'_>) {
    let Record {
        kind,
        clock,
        verdict,
        packet,
    } = record;
    match kind {
        b'S' => *table = events::sweep(*table, clock),
        b'T' => print_table(rt, table),
        b'L' => print_running(rt, table, clock),
        b'P' => print_places(rt, packet, &DATE_LINE),
        _ => {
            let received = events::receive(*table, packet, &KEYS, verdict, clock);
            *table = received.table;
            let _ = match received.receipt {
                Ok(()) => println!(rt; "accepted"),
                Err(refusal) => print_refusal(rt, refusal.into()),
            };
            let _ = print_sentence(rt, packet);
            print_places(rt, packet, &PLACES);
        }
    }
}

// The record that leads an input, and what stands after it: none where not even its front is whole. A packet ends with the input.
fn next_record(input: &[u8]) -> Option<(Record<'_>, &[u8])>
    ensures { IfSome result (λ found. length found.1.now < length input.now) }
{
    let (kind, rest) = input.split_first()?;
    let (clock, rest) = rest.split_first_chunk()?;
    let (verdict, rest) = rest.split_first()?;
    let (len, rest) = rest.split_first_chunk()?;
    let len = usize::from(u16::from_be_bytes(*len));
    let (packet, rest) = rest.split_at(len.min(rest.len()));
    let record = Record {
        kind: *kind,
        clock: u64::from_be_bytes(*clock),
        verdict: *verdict == 1,
        packet,
    };
    Some((record, rest))
}

fn run(rt: &impl Print, input: &[u8]) {
    let mut table = Table {
        entries: [Entry::default(); 64],
    };
    let mut rest = input;
    while let Some((record, after)) = next_record(rest) {
        take_record(rt, &mut table, record);
        rest = after;
    }
}

fn main(rt: HostRuntime) {
    let mut buffer = [0u8; MOST];
    let _ = match input::read_whole_input(&mut rt.reader(), &mut buffer) {
        Ok(input) if input.more => println!(rt; "input over {MOST} bytes"),
        Ok(input) => {
            run(&rt, input.bytes);
            Ok(())
        }
        Err(_) => println!(rt; "input can't be read"),
    };
}
