// The tests of a packet: its first bytes, its lasting time, and those on its fields.
ghost use Rattle.std.specs.Prelude.{◌≡◌, take};
ghost use Rattle.text.specs.Ascii.{ascii};
ghost use Rattle.text.specs.Logic.{eql};
ghost use Rattle.packet.specs.Packet.{accepted_of, alert_of, packet_answer};

use super::layout::fields_of;
use super::{Fault, Fields};
use sheet::ranges::is_lasting;

// Whether a packet starts with "WARN".
pub fn is_warn(p: &[u8]) -> bool
    ensures { result ≡ eql (take 4 p.now) (ascii "WARN") }
{
    p.starts_with(b"WARN")
}

// The last tests of a packet, on its fields.
fn accepted(f: Fields) -> Result<Fields, Fault>
    ensures { packet_answer result ≡ accepted_of f }
{
    if !coordinates::in_range(f.epicentre()) {
        return Err(Fault::Range);
    }
    if !is_lasting(f.lasting()) {
        return Err(Fault::Lasting);
    }
    Ok(f)
}

// The tests of an ALERT from its length on.
pub fn read_alert(p: &[u8]) -> Result<Fields, Fault>
    ensures { packet_answer result ≡ alert_of p.now }
{
    if p.len() < 132 {
        return Err(Fault::Short);
    }
    if 1_200 < p.len() {
        return Err(Fault::Long);
    }
    accepted(fields_of(p))
}
