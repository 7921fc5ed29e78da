// The running events of a table, listed into a room that the caller lends.
ghost use Rattle.std.specs.Prelude.{◌≡◌, ◌<◌, ◌≤◌, length};
ghost use Rattle.text.specs.Rooms.{listing, after_listing};
ghost use Rattle.events.specs.Running.{runs_at, running, list_answer};

use crate::{Entry, EventId, NoRoom, tables};

// Whether the entry at an index runs and is its event's first used one.
#[tactic(auto, using(crate::proofs::ListedRoom::runs_first, crate::proofs::ListedRoom::runs_not))]
fn runs_at(entries: &[Entry], time: u64, i: usize) -> bool
    requires { i < length entries.now }
    ensures { result ≡ runs_at time entries.now i }
{
    let entry = entries[i];
    entry.is_active(time) && tables::find(entries, entry.event_id()) == Some(i)
}

// How many events run.
#[tactic(auto, using(crate::proofs::ListedRoom::counting_steps))]
fn count(entries: &[Entry], time: u64) -> usize
    ensures { result ≡ length (running time entries.now) }
{
    let mut count = 0;
    for i in 0..entries.len() {
        if runs_at(entries, time, i) {
            count += 1;
        }
    }
    count
}

// Puts the running events into a room that has a place for each, and says how many they are.
#[tactic(auto, using(crate::proofs::ListedRoom::listing_steps))]
pub(crate) fn write(room: &mut [EventId], entries: &[Entry], time: u64) -> usize
    requires { length (running time entries.now) ≤ length room.old }
    ensures { (result ≡ length (running time entries.now))
        × (room.new ≡ after_listing room.old (running time entries.now)) }
{
    let mut count = 0;
    for i in 0..entries.len() {
        if runs_at(entries, time, i) {
            room[count] = entries[i].event_id();
            count += 1;
        }
    }
    count
}

// Lists the running events. A refusal leaves the room as it was, so they are counted first, unless the room has a place for each entry.
#[tactic(auto, using(crate::proofs::Listing::running_count))]
pub fn list_running(room: &mut [EventId], entries: &[Entry], time: u64) -> Result<usize, NoRoom>
    ensures { (list_answer result ≡ listing room.old (running time entries.now))
        × (room.new ≡ after_listing room.old (running time entries.now)) }
{
    if room.len() < entries.len() && room.len() < count(entries, time) {
        return Err(NoRoom);
    }
    Ok(write(room, entries, time))
}
