// WARN 1.0 ALERT packets: their fields, their sheet, and whether their circle holds a place.

#![tactic(auto)]

ghost use Rattle.std.specs.Prelude.{◌≡◌, true, ◌*◌, ◌≤◌};
ghost use Rattle.words.specs.Duration.{is_lasting};
ghost use Rattle.packet.specs.declared.PlaceFault.TheVariants.{Packet};
ghost use Rattle.packet.specs.Packet.{epicentre, tlv_of, signature_of, tlv_span, signature_span, signed_span, lasting_of, packet_of, fault_number, packet_answer, sheet_of_fields, packet_sheet, sheet_answer, packet_place, place_answer};

use coordinates::Place;
use sheet::{Span, WarnFacts, span_in};

mod bytes;
mod checks;
mod layout;

// The fields of an ALERT packet. The TLV block and the signature are parts of the packet (`tlv_block`, `signature`).
#[derive(Clone, Copy)]
pub struct Fields {
    pub urgent: bool,
    pub update: bool,
    pub cancel: bool,
    pub test: bool,
    pub timestamp: u64,
    pub event: u32,
    pub sequence: u16,
    pub ttl: u16,
    pub hazard_major: u8,
    pub hazard_minor: u8,
    pub urgency: u8,
    pub severity: u8,
    pub certainty: u8,
    pub response: u8,
    pub onset: u64,
    pub expiry: u64,
    pub effective: u64,
    pub lat: i32,
    pub lon: i32,
    pub radius: u16,
    pub key: u32,
}

impl Fields {
    fn epicentre(&self) -> Place
        ensures { result ≡ epicentre self.now }
    {
        Place {
            lat: self.lat,
            lon: self.lon,
        }
    }

    // How long the packet lasts, in seconds; 0 where it expires before its timestamp.
    fn lasting(&self) -> u64
        ensures { result ≡ lasting_of self.now }
    {
        self.expiry.saturating_sub(self.timestamp)
    }

    // Its radius, of units of 10 m, in metres: its width keeps it below 20,000 km.
    fn metres(&self) -> u32
        ensures { (result ≡ 10 * self.now.radius) × (result ≤ 20_000_000) }
    {
        10 * u32::from(self.radius)
    }
}

// Why a packet is refused.
#[derive(Clone, Copy, Debug, PartialEq, Eq)]
pub enum Fault {
    Short,
    NotWarn,
    Version,
    NotAlert,
    Long,
    Range,
    Lasting,
}

// Why a place is on no side of a packet's circle: it is out of range, or the packet is refused.
#[derive(Clone, Copy, Debug, PartialEq, Eq)]
pub enum PlaceFault {
    OutOfRange,
    Packet(Fault),
}

// Document 01's number for a fault.
impl From<Fault> for u8 {
    ghost from_gives = { λ fault number. number ≡ fault_number fault };

    fn from(fault: Fault) -> u8 {
        match fault {
            Fault::Short => 1,
            Fault::NotWarn => 2,
            Fault::Version => 3,
            Fault::NotAlert => 4,
            Fault::Long => 5,
            Fault::Range => 6,
            Fault::Lasting => 7,
        }
    }
}

impl From<Fault> for PlaceFault {
    ghost from_gives = { λ fault place_fault. place_fault ≡ Packet fault };

    fn from(fault: Fault) -> PlaceFault {
        PlaceFault::Packet(fault)
    }
}

// Where the TLV block stands: between the fields and the last 68 bytes. It is empty where the packet is shorter than an ALERT.
pub fn tlv_span(p: &[u8]) -> Span
    ensures { result ≡ tlv_span p.now }
{
    Span {
        start: 0x40,
        len: p.len().saturating_sub(132),
    }
}

// Where the signature stands: in the last 64 bytes.
pub fn signature_span(p: &[u8]) -> Span
    ensures { result ≡ signature_span p.now }
{
    Span {
        start: p.len().saturating_sub(64),
        len: 64,
    }
}

// The bytes that the signature signs: those before it.
pub fn signed_span(p: &[u8]) -> Span
    ensures { result ≡ signed_span p.now }
{
    Span {
        start: 0,
        len: p.len().saturating_sub(64),
    }
}

// The TLV block of a packet; none where the packet is shorter than an ALERT.
#[tactic(auto, using(crate::proofs::Parts::tlv_bytes))]
pub fn tlv_block(p: &[u8]) -> &[u8]
    ensures { result.now ≡ tlv_of p.now }
{
    span_in(p, tlv_span(p))
}

// The signature of a packet: its last 64 bytes, all of it where it is shorter.
#[tactic(auto, unfolding(crate::specs::Packet::signature_of))]
pub fn signature(p: &[u8]) -> &[u8]
    ensures { result.now ≡ signature_of p.now }
{
    &p[p.len().saturating_sub(64)..]
}

// The fields of an ALERT packet, or why it is refused.
#[tactic(auto, unfolding(crate::specs::Packet::packet_of))]
pub fn read_packet(p: &[u8]) -> Result<Fields, Fault>
    ensures { packet_answer result ≡ packet_of p.now }
{
    if p.len() < 8 {
        return Err(Fault::Short);
    }
    if !checks::is_warn(p) {
        return Err(Fault::NotWarn);
    }
    if layout::major_version(p) != 1 {
        return Err(Fault::Version);
    }
    if !layout::flag(p, 0) {
        return Err(Fault::NotAlert);
    }
    checks::read_alert(p)
}

// The sheet of an ALERT's fields.
#[tactic(auto, unfolding(crate::specs::Packet::sheet_of_fields))]
fn sheet_of(f: Fields) -> WarnFacts
    requires { is_lasting (lasting_of f) ≡ true }
    ensures { result ≡ sheet_of_fields f }
{
    WarnFacts {
        urgent: f.urgent,
        update: f.update,
        cancel: f.cancel,
        test: f.test,
        event: f.event,
        number: f.sequence,
        origin: f.key,
        lasting: f.lasting() as u32,
        hazard: f.hazard_major,
        kind: f.hazard_minor,
        urgency: f.urgency,
        severity: f.severity,
        certainty: f.certainty,
        response: f.response,
    }
}

// The sheet of a packet, or why the packet is refused.
#[tactic(auto, using(crate::proofs::Acceptance::lasts_read), unfolding(crate::specs::Packet::packet_sheet))]
pub fn packet_sheet(p: &[u8]) -> Result<WarnFacts, Fault>
    ensures { sheet_answer result ≡ packet_sheet p.now }
{
    let fields = read_packet(p)?;
    Ok(sheet_of(fields))
}

// Whether a packet's circle holds a place; or why the packet, and then the place, is refused.
#[tactic(auto, using(crate::proofs::Sides::always_a_side), unfolding(crate::specs::Packet::packet_place))]
pub fn packet_place(p: &[u8], place: Place) -> Result<bool, PlaceFault>
    ensures { place_answer result ≡ packet_place p.now place }
{
    let fields = read_packet(p)?;
    if !coordinates::in_range(place) {
        return Err(PlaceFault::OutOfRange);
    }
    // a packet's radius always makes a circle
    Ok(circle::around_holds(fields.epicentre(), fields.metres(), place).unwrap())
}
