// The event table: which packets are accepted, and what the table then holds.

#![tactic(auto)]

ghost use Rattle.std.specs.Prelude.{◌≡◌, length, replicate};
ghost use Rattle.text.specs.Answers.{answer_number};
ghost use Rattle.text.specs.Rooms.{after_listing};
ghost use Rattle.events.specs.declared.Refusal.TheVariants.{Packet};
ghost use Rattle.events.specs.Table.{position_of, received, refusal_number, receipt_answer, swept_all};
ghost use Rattle.events.specs.Running.{no_event, running};

use packet::Fault;

pub mod checks; // checks.rt: the checks before the table
pub mod entries; // entries.rt: the rules on one entry
pub mod lists; // lists.rt: the running events, listed into a room
pub mod plans; // plans.rt: what is stored, and where
pub mod tables; // tables.rt: the table as a run of entries of any length

// An entry of the event table, laid out as C lays it out: a caller in C lends such entries. Its marks are bytes, as its memory may hold any
// bytes; any byte but 0 is set.
#[repr(C)]
#[derive(Clone, Copy, Default)]
pub struct Entry {
    pub used: u8,
    pub key: u32,
    pub event: u32,
    pub sequence: u16,
    pub cancelled: u8,
    pub keep_until: u64,
    pub timestamp: u64,
    pub expiry: u64,
}

// A table of 64 entries, by value.
#[derive(Clone, Copy)]
pub struct Table {
    pub entries: [Entry; 64],
}

// What a packet that passed the checks before the table stores.
#[derive(Clone, Copy)]
pub struct New {
    pub key: u32,
    pub event: u32,
    pub sequence: u16,
    pub cancelled: bool,
    pub keep_until: u64,
    pub timestamp: u64,
    pub expiry: u64,
}

// What an event is known by: the key id and the event number. A caller in C lends room for such.
#[repr(C)]
#[derive(Clone, Copy, Debug, PartialEq, Eq)]
pub struct EventId {
    pub key: u32,
    pub event: u32,
}

// Why a packet is refused: by the checks before the table, by the table, or by itself.
#[derive(Clone, Copy, Debug, PartialEq, Eq)]
pub enum Refusal {
    ClockOutOfRange,
    UnknownKey,
    Unverified,
    NotAbove,
    Full,
    Packet(Fault),
}

// The answer, and the table afterwards.
#[derive(Clone, Copy)]
pub struct Received {
    pub receipt: Result<(), Refusal>,
    pub table: Table,
}

// The running events of a table by value: how many they are, and room for 64, of which they take the first places.
// kept: a length beside its places, since libraries have no heap
#[derive(Clone, Copy)]
pub struct Running {
    pub count: usize,
    pub events: [EventId; 64],
}

// Why the running events are not listed: the room has too few places.
#[derive(Clone, Copy, Debug, PartialEq, Eq)]
pub struct NoRoom;

// Where an event's first used entry stands.
pub fn find(table: Table, key: u32, event: u32) -> Option<usize>
    ensures { result ≡ position_of key event table.entries }
{
    tables::find(&table.entries, EventId { key, event })
}

// A packet is received. `verdict` is the signature chip's, `keys` are the key ids that are listened to.
pub fn receive(mut table: Table, packet: &[u8], keys: &[u32], verdict: bool, clock: u64) -> Received
    ensures { (receipt_answer result.receipt ≡ (received table.entries packet.now keys.now verdict clock).answer) × (result.table.entries ≡ (received table.entries packet.now keys.now verdict clock).entries) }
{
    let receipt = tables::receive(&mut table.entries, packet, keys, verdict, clock);
    Received { receipt, table }
}

// Frees the used entries whose keep-until is below a time.
pub fn sweep(mut table: Table, time: u64) -> Table
    ensures { result.entries ≡ swept_all time table.entries }
{
    tables::sweep(&mut table.entries, time);
    table
}

// The running events of a table at a time.
#[tactic(auto, using(crate::proofs::Listing::running_count))]
pub fn list_running(table: Table, time: u64) -> Running
    ensures { (result.count ≡ length (running time table.entries)) × (result.events ≡ after_listing (replicate 64 no_event) (running time table.entries)) }
{
    let mut events = [EventId { key: 0, event: 0 }; 64];
    let count = lists::write(&mut events, &table.entries, time);
    Running { count, events }
}

impl From<Fault> for Refusal {
    ghost from_gives = { λ fault refusal. refusal ≡ Packet fault };

    fn from(fault: Fault) -> Refusal {
        Refusal::Packet(fault)
    }
}

// Document 01's number for a refusal; its offset is 0.
impl From<Refusal> for u8 {
    ghost from_gives = { λ refusal number. number ≡ refusal_number refusal };

    fn from(refusal: Refusal) -> u8 {
        match refusal {
            Refusal::ClockOutOfRange => 12,
            Refusal::UnknownKey => 8,
            Refusal::Unverified => 9,
            Refusal::NotAbove => 10,
            Refusal::Full => 11,
            Refusal::Packet(fault) => u8::from(fault),
        }
    }
}

// The number of an answer, 0 for acceptance.
pub fn receipt_number(receipt: Result<(), Refusal>) -> u8
    ensures { result ≡ answer_number (receipt_answer receipt) }
{
    match receipt {
        Ok(()) => 0,
        Err(refusal) => u8::from(refusal),
    }
}
