// The fields of an ALERT packet by their offsets.
ghost use Rattle.std.specs.Prelude.{◌≡◌, ◌≤◌, length};
ghost use Rattle.packet.specs.BigEndian.{number_of};
ghost use Rattle.packet.specs.Packet.{flag, fields_of};

use super::Fields;
use super::bytes::bytes_at;

#[tactic(auto, using(crate::proofs::Numbers::number_one))]
pub fn major_version(p: &[u8]) -> u8
    requires { 8 ≤ length p.now }
    ensures { result ≡ number_of 1 0x04 p.now }
{
    p[0x04]
}

// Whether a flag is set; bit 0 is the top bit of the 16.
pub fn flag(p: &[u8], bit: u32) -> bool
    requires { (8 ≤ length p.now) × (bit ≤ 15) }
    ensures { result ≡ flag bit p.now }
{
    (u16::from_be_bytes(bytes_at(p, 0x06)) >> (15 - bit)) % 2 == 1
}

// All fields of a packet that is long enough to have them.
pub fn fields_of(p: &[u8]) -> Fields
    requires { 132 ≤ length p.now }
    ensures { result ≡ fields_of p.now }
{
    Fields {
        urgent: flag(p, 1),
        update: flag(p, 2),
        cancel: flag(p, 3),
        test: flag(p, 4),
        timestamp: u64::from_be_bytes(bytes_at(p, 0x08)),
        event: u32::from_be_bytes(bytes_at(p, 0x10)),
        sequence: u16::from_be_bytes(bytes_at(p, 0x14)),
        ttl: u16::from_be_bytes(bytes_at(p, 0x16)),
        hazard_major: p[0x18],
        hazard_minor: p[0x19],
        urgency: p[0x1A],
        severity: p[0x1B],
        certainty: p[0x1C],
        response: p[0x1D],
        onset: u64::from_be_bytes(bytes_at(p, 0x1E)),
        expiry: u64::from_be_bytes(bytes_at(p, 0x26)),
        effective: u64::from_be_bytes(bytes_at(p, 0x2E)),
        lat: i32::from_be_bytes(bytes_at(p, 0x36)),
        lon: i32::from_be_bytes(bytes_at(p, 0x3A)),
        radius: u16::from_be_bytes(bytes_at(p, 0x3E)),
        key: u32::from_be_bytes(bytes_at(p, p.len() - 68)),
    }
}
