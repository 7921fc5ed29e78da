// The event table as C lends it: a run of entries of any length (events::tables).
ghost use Rattle.std.specs.Prelude.{◌≡◌};
ghost use Rattle.text.specs.Answers.{answer_number};
ghost use Rattle.events.specs.Table.{is_set, index_of, received, swept_all};

use events::entries::is_set;
use events::{Entry, EventId};

// Frees the used entries whose keep-until is below a time.
pub fn warnbox_sweep(entries: &mut [Entry], time: u64)
    ensures { entries.new ≡ swept_all time entries.old }
{
    events::tables::sweep(entries, time);
}

// The index of an event's first used entry, the number of entries where it has none.
#[tactic(auto, using(events::proofs::Search::found_or_all))]
pub fn warnbox_find_event(entries: &[Entry], key: u32, event: u32) -> usize
    ensures { result ≡ index_of key event entries.now }
{
    events::tables::find(entries, EventId { key, event }).unwrap_or(entries.len())
}

// A packet is received. `verified` is the signature chip's verdict, any byte but 0 being yes; `keys` are the key ids that are listened to. Every
// refusal's offset is 0.
pub fn warnbox_receive(
    entries: &mut [Entry],
    packet: &[u8],
    keys: &[u32],
    verified: u8,
    clock: u64,
) -> u8
    ensures { (result ≡ answer_number (received entries.old packet.now keys.now (is_set verified) clock).answer) × (entries.new ≡ (received entries.old packet.now keys.now (is_set verified) clock).entries) }
{
    let receipt = events::tables::receive(entries, packet, keys, is_set(verified), clock);
    events::receipt_number(receipt)
}
