// What is stored of a packet that passed the checks before the table, and where.
ghost use Rattle.std.specs.Prelude.{◌≡◌};
ghost use Rattle.events.specs.Steps.{decided, decided_by, found_with, no_candidates};

use crate::{Entry, EventId, New, Refusal, tables};

// What a search for an event among entries finds: its first used entry with the index, and the lowest free index. Entries that stand in no slice are searched
// by it one after the other.
#[derive(Clone, Copy)]
pub struct Candidates {
    pub known: Option<(usize, Entry)>,
    pub free: Option<usize>,
}

impl Candidates {
    // What is found among no entries.
    pub fn none() -> Candidates
        ensures { result ≡ no_candidates }
    {
        Candidates {
            known: None,
            free: None,
        }
    }

    // What is found with one entry more, which stands at an index.
    pub fn with(self, id: EventId, at: usize, entry: Entry) -> Candidates
        ensures { result ≡ found_with id.key id.event self at entry }
    {
        Candidates {
            known: self.known.or(entry.is_of(id).then_some((at, entry))),
            free: self.free.or(entry.is_free().then_some(at)),
        }
    }

    // What a packet comes to: the index where an entry is stored, and that entry; or why it is refused.
    pub fn decide(self, new: New) -> Result<(usize, Entry), Refusal>
        ensures { result ≡ decided_by self new }
    {
        if let Some((at, entry)) = self.known {
            if entry.sequence < new.sequence {
                return Ok((at, entry.renewed(new)));
            }
            return Err(Refusal::NotAbove);
        }
        let at = self.free.ok_or(Refusal::Full)?;
        Ok((at, Entry::from(new)))
    }
}

// What a packet comes to among the entries of a slice. A free one is looked for only where the event has none.
#[tactic(auto, using(crate::proofs::Search::found, crate::proofs::Search::found_free), unfolding(crate::specs::Steps::decided))]
pub fn decide(entries: &[Entry], new: New) -> Result<(usize, Entry), Refusal>
    ensures { result ≡ decided new entries.now }
{
    let mut found = Candidates::none();
    match tables::find(entries, new.event_id()) {
        Some(at) => found.known = Some((at, entries[at])),
        None => found.free = tables::find_free(entries),
    }
    found.decide(new)
}
