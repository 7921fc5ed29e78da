// The checks before the table: the packet's own, then the clock (12), the key (8) and the verdict (9).
ghost use Rattle.std.specs.Prelude.{◌≡◌, ◌≤◌};
ghost use Rattle.text.specs.Answers.{answer_and_then};
ghost use Rattle.packet.specs.Packet.{packet_of};
ghost use Rattle.events.specs.Table.{new_of, is_listed, checked};
ghost use Rattle.events.specs.Steps.{checked_answer};

use crate::{New, Refusal};
use packet::Fields;

// The last clock at which a packet is taken: 2^64 - 65,536.
const LAST_CLOCK: u64 = 18_446_744_073_709_486_080;

// Whether a key is in a list.
fn is_listed(keys: &[u32], key: u32) -> bool
    ensures { result ≡ is_listed keys.now key }
{
    keys.contains(&key)
}

// What a packet stores. The last clock is 2^64 - 65,536, so that the sum fits.
fn new_of(clock: u64, fields: Fields) -> New
    requires { clock ≤ 18_446_744_073_709_486_080 }
    ensures { result ≡ new_of clock fields }
{
    New {
        key: fields.key,
        event: fields.event,
        sequence: fields.sequence,
        cancelled: fields.cancel,
        keep_until: clock + (fields.ttl as u64),
        timestamp: fields.timestamp,
        expiry: fields.expiry,
    }
}

// What a packet stores that passes its own checks and then those of the clock, the key and the verdict; or why it is refused.
#[tactic(auto, unfolding(crate::specs::Table::checked))]
pub fn check(packet: &[u8], keys: &[u32], verdict: bool, clock: u64) -> Result<New, Refusal>
    ensures { checked_answer result ≡ answer_and_then (packet_of packet.now) (checked keys.now verdict clock) }
{
    let fields = packet::read_packet(packet)?;
    if LAST_CLOCK < clock {
        return Err(Refusal::ClockOutOfRange);
    }
    if !is_listed(keys, fields.key) {
        return Err(Refusal::UnknownKey);
    }
    if !verdict {
        return Err(Refusal::Unverified);
    }
    Ok(new_of(clock, fields))
}
