// The event table as a run of entries of any length.
ghost use Rattle.std.specs.Prelude.{◌≡◌};
ghost use Rattle.std.specs.List.{position};
ghost use Rattle.events.specs.Table.{is_free, position_of, table_outcome, received, receipt_answer, swept_all};

use crate::{Entry, EventId, New, Refusal, checks, plans};

// Where an event's first used entry stands.
pub fn find(entries: &[Entry], id: EventId) -> Option<usize>
    ensures { result ≡ position_of id.key id.event entries.now }
{
    entries.iter().position(|entry| entry.is_of(id))
}

// Where the lowest free entry stands.
pub fn find_free(entries: &[Entry]) -> Option<usize>
    ensures { result ≡ position is_free entries.now }
{
    entries.iter().position(|entry| entry.is_free())
}

// A packet that passed the checks before the table is accepted or refused.
pub fn accept(entries: &mut [Entry], new: New) -> Result<(), Refusal>
    ensures { (receipt_answer result ≡ (table_outcome new entries.old).answer) × (entries.new ≡ (table_outcome new entries.old).entries) }
{
    let (at, entry) = plans::decide(entries, new)?;
    entries[at] = entry;
    Ok(())
}

// A packet is received. `verdict` is the signature chip's, `keys` are the key ids that are listened to.
pub fn receive(
    entries: &mut [Entry],
    packet: &[u8],
    keys: &[u32],
    verdict: bool,
    clock: u64,
) -> Result<(), Refusal>
    ensures { (receipt_answer result ≡ (received entries.old packet.now keys.now verdict clock).answer) × (entries.new ≡ (received entries.old packet.now keys.now verdict clock).entries) }
{
    let new = checks::check(packet, keys, verdict, clock)?;
    accept(entries, new)
}

// Frees the used entries whose keep-until is below a time.
#[tactic(auto, using(crate::proofs::Sweeping::sweep_steps))]
pub fn sweep(entries: &mut [Entry], time: u64)
    ensures { entries.new ≡ swept_all time entries.old }
{
    for entry in entries.iter_mut() {
        entry.sweep(time);
    }
}
