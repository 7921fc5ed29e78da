// The running events of the event table, listed into a room that C lends (events::lists).
ghost use Rattle.std.specs.Prelude.{◌≡◌};
ghost use Rattle.text.specs.Rooms.{listing, after_listing};
ghost use Rattle.events.specs.Running.{running};
ghost use Rattle.warnbox.specs.Replies.{reply};
ghost use Rattle.warnbox.specs.Sheets.{drawn_answer};

use crate::replies::{Refused, tell};
use events::{Entry, EventId};

// Lists the running events, and gives how many they are.
fn list(room: &mut [EventId], entries: &[Entry], time: u64) -> Result<usize, Refused>
    ensures { (drawn_answer result ≡ listing room.old (running time entries.now))
        × (room.new ≡ after_listing room.old (running time entries.now)) }
{
    Ok(events::lists::list_running(room, entries, time)?)
}

// Lists the running events; the value is how many they are.
pub fn warnbox_running(room: &mut [EventId], entries: &[Entry], time: u64, value: &mut usize) -> u8
    ensures { (result ≡ (reply (listing room.old (running time entries.now))).number)
        × (value.new ≡ (reply (listing room.old (running time entries.now))).value)
        × (room.new ≡ after_listing room.old (running time entries.now)) }
{
    tell(list(room, entries, time), value)
}
