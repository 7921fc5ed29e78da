// WARN packets.
ghost use Rattle.std.specs.Prelude.{◌≡◌, []};
ghost use mir.Val.{bool_byte};
ghost use Rattle.text.specs.Answers.{giving, answer_number};
ghost use Rattle.sheet.specs.declared.Found.TheVariants.{Warn};
ghost use Rattle.packet.specs.Packet.{packet_of, packet_sheet, packet_place};
ghost use Rattle.numbers.specs.Numbers.{numbers_of};
ghost use Rattle.warnbox.specs.Replies.{reply, given_or};
ghost use Rattle.warnbox.specs.Packets.{parts_of};
ghost use Rattle.warnbox.specs.Sentences.{sentence_of, after_sentence};
ghost use Rattle.warnbox.specs.Sheets.{drawn_answer};

use crate::Reply;
use crate::replies::{Refused, tell};
use crate::sheets::{put_numbers, write_drawn};
use coordinates::Place;
use packet::Fields;
use sheet::{Found, Span};

// The fields of a packet, and where its TLV block, the bytes that are signed and the signature stand in it. C lends it, so there is no `bool`
// whose byte might be neither 0 nor 1, and no hole in its layout: a flag is 1 or 0.
#[repr(C)]
#[derive(Clone, Copy)]
pub struct PacketParts {
    pub timestamp: u64,
    pub onset: u64,
    pub expiry: u64,
    pub effective: u64,
    pub tlv: Span,
    pub signed: Span,
    pub signature: Span,
    pub event: u32,
    pub key: u32,
    pub latitude: i32,
    pub longitude: i32,
    pub sequence: u16,
    pub ttl: u16,
    pub radius: u16,
    pub urgent: u8,
    pub update: u8,
    pub cancel: u8,
    pub test: u8,
    pub hazard_major: u8,
    pub hazard_minor: u8,
    pub urgency: u8,
    pub severity: u8,
    pub certainty: u8,
    pub response: u8,
}

// The parts of a packet whose fields were read.
#[tactic(auto, unfolding(crate::specs::Packets::parts_of))]
fn parts_of(packet: &[u8], f: Fields) -> PacketParts
    ensures { result ≡ parts_of packet.now f }
{
    PacketParts {
        timestamp: f.timestamp,
        onset: f.onset,
        expiry: f.expiry,
        effective: f.effective,
        tlv: packet::tlv_span(packet),
        signed: packet::signed_span(packet),
        signature: packet::signature_span(packet),
        event: f.event,
        key: f.key,
        latitude: f.lat,
        longitude: f.lon,
        sequence: f.sequence,
        ttl: f.ttl,
        radius: f.radius,
        urgent: f.urgent as u8,
        update: f.update as u8,
        cancel: f.cancel as u8,
        test: f.test as u8,
        hazard_major: f.hazard_major,
        hazard_minor: f.hazard_minor,
        urgency: f.urgency,
        severity: f.severity,
        certainty: f.certainty,
        response: f.response,
    }
}

// The sheet of a packet.
fn sheet_of(packet: &[u8]) -> Result<Found, Refused>
    ensures { drawn_answer result ≡ giving Warn (packet_sheet packet.now) }
{
    Ok(Found::Warn(packet::packet_sheet(packet)?))
}

// Whether a place is inside a packet's circle: 1, else 0.
fn side_of(packet: &[u8], place: Place) -> Result<usize, Refused>
    ensures { drawn_answer result ≡ giving bool_byte (packet_place packet.now place) }
{
    Ok(packet::packet_place(packet, place)? as usize)
}

// Reads a packet: its fields, and where its parts stand. A refused one leaves `parts` as it was.
pub fn warnbox_read_packet(packet: &[u8], parts: &mut PacketParts) -> u8
    ensures { (result ≡ answer_number (packet_of packet.now))
        × (parts.new ≡ given_or parts.old (giving (parts_of packet.now) (packet_of packet.now))) }
{
    match packet::read_packet(packet) {
        Ok(fields) => {
            *parts = parts_of(packet, fields);
            0
        }
        Err(fault) => u8::from(fault),
    }
}

// Writes the sentence of a packet; the value is the sentence's end.
pub fn warnbox_packet_sentence(
    buffer: &mut [u8],
    start: usize,
    packet: &[u8],
    value: &mut usize,
) -> u8
    ensures { (result ≡ (reply (sentence_of buffer.old start [] (giving Warn (packet_sheet packet.now)))).number)
        × (value.new ≡ (reply (sentence_of buffer.old start [] (giving Warn (packet_sheet packet.now)))).value)
        × (buffer.new ≡ after_sentence buffer.old start [] (giving Warn (packet_sheet packet.now))) }
{
    tell(write_drawn(buffer, start, &[], sheet_of(packet)), value) // a WARN sheet has no sender and no name
}

// Draws the sheet of a packet, as numbers. A refused packet leaves `sheet` as it was.
pub fn warnbox_packet_sheet(packet: &[u8], sheet: &mut [u64; 15]) -> u8
    ensures { (result ≡ answer_number (packet_sheet packet.now))
        × (sheet.new ≡ given_or sheet.old (giving numbers_of (giving Warn (packet_sheet packet.now)))) }
{
    Reply::from(put_numbers(sheet, sheet_of(packet))).number
}

// Whether a place is inside a packet's circle; the value is 0 for outside, 1 for inside.
pub fn warnbox_packet_place(packet: &[u8], lat: i32, lon: i32, value: &mut usize) -> u8
    ensures { (result ≡ (reply (giving bool_byte (packet_place packet.now (record { lat = lat; lon = lon })))).number)
        × (value.new ≡ (reply (giving bool_byte (packet_place packet.now (record { lat = lat; lon = lon })))).value) }
{
    tell(side_of(packet, Place { lat, lon }), value)
}
