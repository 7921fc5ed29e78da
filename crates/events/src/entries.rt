// The rules on one entry.
ghost use Rattle.std.specs.Prelude.{◌≡◌};
ghost use Rattle.events.specs.Table.{is_set, is_of, is_free, renewed, fresh, is_stale, swept};
ghost use Rattle.events.specs.Running.{is_running, event_of};
ghost use Rattle.events.specs.Steps.{is_active};

use crate::{Entry, EventId, New};

// Whether a byte is set: any byte but 0 is.
pub fn is_set(byte: u8) -> bool
    ensures { result ≡ is_set byte }
{
    byte != 0
}

impl Entry {
    // Whether it is a used one of an event.
    pub fn is_of(&self, id: EventId) -> bool
        ensures { result ≡ is_of id.key id.event self.now }
    {
        is_set(self.used) && self.event_id() == id
    }

    pub fn is_free(&self) -> bool
        ensures { result ≡ is_free self.now }
    {
        !is_set(self.used)
    }

    // It after a packet of its event that is accepted.
    pub fn renewed(self, new: New) -> Entry
        ensures { result ≡ renewed new self }
    {
        Entry {
            sequence: new.sequence,
            cancelled: new.cancelled as u8,
            keep_until: self.keep_until.max(new.keep_until),
            timestamp: new.timestamp,
            expiry: new.expiry, // an update may shorten it
            ..self
        }
    }

    // Whether it is a used one whose keep-until is below a time.
    pub fn is_stale(&self, time: u64) -> bool
        ensures { result ≡ is_stale time self.now }
    {
        is_set(self.used) && self.keep_until < time
    }

    // Frees it where it is stale: only the used mark may change.
    pub fn sweep(&mut self, time: u64)
        ensures { self.new ≡ swept time self.old }
    {
        if self.is_stale(time) {
            self.used = 0;
        }
    }

    // Whether it is uncancelled, its timestamp at or before a time and its expiry after it.
    pub fn is_running(&self, time: u64) -> bool
        ensures { result ≡ is_running time self.now }
    {
        !is_set(self.cancelled) && self.timestamp <= time && time < self.expiry
    }

    // Whether it is a used one that runs.
    pub fn is_active(&self, time: u64) -> bool
        ensures { result ≡ is_active time self.now }
    {
        is_set(self.used) && self.is_running(time)
    }

    pub fn event_id(&self) -> EventId
        ensures { result ≡ event_of self.now }
    {
        EventId {
            key: self.key,
            event: self.event,
        }
    }
}

impl New {
    pub fn event_id(&self) -> EventId
        ensures { result ≡ record { key = self.now.key; event = self.now.event } }
    {
        EventId {
            key: self.key,
            event: self.event,
        }
    }
}

// The entry of a new event.
impl From<New> for Entry {
    ghost from_gives = { λ new entry. entry ≡ fresh new };

    fn from(new: New) -> Entry {
        Entry {
            used: 1,
            key: new.key,
            event: new.event,
            sequence: new.sequence,
            cancelled: new.cancelled as u8,
            keep_until: new.keep_until,
            timestamp: new.timestamp,
            expiry: new.expiry,
        }
    }
}
