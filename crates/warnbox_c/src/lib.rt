// The library for C: each function of `warnbox` that C calls, with its clauses again. include/warnbox.h documents each for its callers.

#![tactic(auto)]

ghost use Rattle.document.specs.Documents.{check_of};
ghost use Rattle.events.specs.Running.{running};
ghost use Rattle.events.specs.Table.{index_of, is_set, received, swept_all};
ghost use Rattle.numbers.specs.Numbers.{numbers_of};
ghost use Rattle.packet.specs.Packet.{packet_of, packet_place, packet_sheet};
ghost use Rattle.parts.specs.Places.{cap_place};
ghost use Rattle.parts.specs.Reasons.{cap_why};
ghost use Rattle.parts.specs.Sheets.{cap_sheet};
ghost use Rattle.refusals.specs.Names.{after_name, naming};
ghost use Rattle.sheet.specs.Answers.{read_back};
ghost use Rattle.sheet.specs.declared.Found.TheVariants.{Warn};
ghost use Rattle.std.specs.Prelude.{[], ◌≡◌};
ghost use Rattle.text.specs.Answers.{answer_number, giving};
ghost use Rattle.text.specs.Rooms.{after_listing, listing};
ghost use Rattle.warnbox.specs.Packets.{parts_of};
ghost use Rattle.warnbox.specs.Replies.{count_of, given_or, reply, side_number, why_numbers};
ghost use Rattle.warnbox.specs.Sentences.{after_sentence, handed_in, numbers_read, sentence_of};
ghost use Rattle.warnbox.specs.Sheets.{no_more};
ghost use Rattle.warnbox.specs.Version.{version};
ghost use mir.Val.{bool_byte};

use events::{Entry, EventId};
use warnbox::packets::PacketParts;

// Checks a document; the value is its number of parts.
#[unsafe(no_mangle)]
pub extern "C" fn warnbox_check_document(document: &[u8], value: &mut usize) -> u8
    ensures { (result ≡ (reply (check_of document.now)).number) × (value.new ≡ (reply (check_of document.now)).value) }
{
    warnbox::documents::warnbox_check_document(document, value)
}

// Writes the sentence of a part of a document; the value is the sentence's end.
#[unsafe(no_mangle)]
pub extern "C" fn warnbox_document_sentence(
    buffer: &mut [u8],
    start: usize,
    document: &[u8],
    part: usize,
    value: &mut usize,
) -> u8
    ensures { (result ≡ (reply (sentence_of buffer.old start document.now (cap_sheet part document.now))).number)
        × (value.new ≡ (reply (sentence_of buffer.old start document.now (cap_sheet part document.now))).value)
        × (buffer.new ≡ after_sentence buffer.old start document.now (cap_sheet part document.now)) }
{
    warnbox::documents::warnbox_document_sentence(buffer, start, document, part, value)
}

// Draws the sheet of a part of a document, as numbers; the value is 0. A refusal leaves `sheet` as it was.
#[unsafe(no_mangle)]
pub extern "C" fn warnbox_document_sheet(
    document: &[u8],
    part: usize,
    sheet: &mut [u64; 15],
    value: &mut usize,
) -> u8
    ensures { (result ≡ (reply (giving no_more (cap_sheet part document.now))).number)
        × (value.new ≡ (reply (giving no_more (cap_sheet part document.now))).value)
        × (sheet.new ≡ given_or sheet.old (giving numbers_of (cap_sheet part document.now))) }
{
    warnbox::documents::warnbox_document_sheet(document, part, sheet, value)
}

// Whether a place is inside a part of a document; the value is 0 for outside, 1 for inside, 2 for no shape.
#[unsafe(no_mangle)]
pub extern "C" fn warnbox_document_place(
    document: &[u8],
    part: usize,
    lat: i32,
    lon: i32,
    value: &mut usize,
) -> u8
    ensures { (result ≡ (reply (giving side_number (cap_place part (record { lat = lat; lon = lon }) document.now))).number)
        × (value.new ≡ (reply (giving side_number (cap_place part (record { lat = lat; lon = lon }) document.now))).value) }
{
    warnbox::documents::warnbox_document_place(document, part, lat, lon, value)
}

// Why a place is inside a part of a document or outside it; number and value are those of whether it is. A refusal leaves `why` as it was.
#[unsafe(no_mangle)]
pub extern "C" fn warnbox_document_why(
    document: &[u8],
    part: usize,
    lat: i32,
    lon: i32,
    why: &mut [usize; 4],
    value: &mut usize,
) -> u8
    ensures { (result ≡ (reply (giving side_number (cap_place part (record { lat = lat; lon = lon }) document.now))).number)
        × (value.new ≡ (reply (giving side_number (cap_place part (record { lat = lat; lon = lon }) document.now))).value)
        × (why.new ≡ given_or why.old (giving why_numbers (cap_why part (record { lat = lat; lon = lon }) document.now))) }
{
    warnbox::documents::warnbox_document_why(document, part, lat, lon, why, value)
}

// Writes the name of a refusal's number; the value is the name's end.
#[unsafe(no_mangle)]
pub extern "C" fn warnbox_refusal_name(
    buffer: &mut [u8],
    start: usize,
    number: u8,
    value: &mut usize,
) -> u8
    ensures { (result ≡ (reply (naming buffer.old start number)).number)
        × (value.new ≡ (reply (naming buffer.old start number)).value)
        × (buffer.new ≡ after_name buffer.old start number) }
{
    warnbox::names::warnbox_refusal_name(buffer, start, number, value)
}

// The library's version as one number.
#[unsafe(no_mangle)]
pub extern "C" fn warnbox_version() -> u32
    ensures { result ≡ version }
{
    warnbox::names::warnbox_version()
}

// Reads a packet: its fields, and where its parts stand. A refused one leaves `parts` as it was.
#[unsafe(no_mangle)]
pub extern "C" fn warnbox_read_packet(packet: &[u8], parts: &mut PacketParts) -> u8
    ensures { (result ≡ answer_number (packet_of packet.now))
        × (parts.new ≡ given_or parts.old (giving (parts_of packet.now) (packet_of packet.now))) }
{
    warnbox::packets::warnbox_read_packet(packet, parts)
}

// Writes the sentence of a packet; the value is the sentence's end.
#[unsafe(no_mangle)]
pub extern "C" fn warnbox_packet_sentence(
    buffer: &mut [u8],
    start: usize,
    packet: &[u8],
    value: &mut usize,
) -> u8
    ensures { (result ≡ (reply (sentence_of buffer.old start [] (giving Warn (packet_sheet packet.now)))).number)
        × (value.new ≡ (reply (sentence_of buffer.old start [] (giving Warn (packet_sheet packet.now)))).value)
        × (buffer.new ≡ after_sentence buffer.old start [] (giving Warn (packet_sheet packet.now))) }
{
    warnbox::packets::warnbox_packet_sentence(buffer, start, packet, value)
}

// Draws the sheet of a packet, as numbers. A refused packet leaves `sheet` as it was.
#[unsafe(no_mangle)]
pub extern "C" fn warnbox_packet_sheet(packet: &[u8], sheet: &mut [u64; 15]) -> u8
    ensures { (result ≡ answer_number (packet_sheet packet.now))
        × (sheet.new ≡ given_or sheet.old (giving numbers_of (giving Warn (packet_sheet packet.now)))) }
{
    warnbox::packets::warnbox_packet_sheet(packet, sheet)
}

// Whether a place is inside a packet's circle; the value is 0 for outside, 1 for inside.
#[unsafe(no_mangle)]
pub extern "C" fn warnbox_packet_place(packet: &[u8], lat: i32, lon: i32, value: &mut usize) -> u8
    ensures { (result ≡ (reply (giving bool_byte (packet_place packet.now (record { lat = lat; lon = lon })))).number)
        × (value.new ≡ (reply (giving bool_byte (packet_place packet.now (record { lat = lat; lon = lon })))).value) }
{
    warnbox::packets::warnbox_packet_place(packet, lat, lon, value)
}

// Lists the running events; the value is how many they are.
#[unsafe(no_mangle)]
pub extern "C" fn warnbox_running(
    room: &mut [EventId],
    entries: &[Entry],
    time: u64,
    value: &mut usize,
) -> u8
    ensures { (result ≡ (reply (listing room.old (running time entries.now))).number)
        × (value.new ≡ (reply (listing room.old (running time entries.now))).value)
        × (room.new ≡ after_listing room.old (running time entries.now)) }
{
    warnbox::running::warnbox_running(room, entries, time, value)
}

// Writes the sentence of a sheet, whose sender and name stand in a text; the value is the sentence's end.
#[unsafe(no_mangle)]
pub extern "C" fn warnbox_write(
    buffer: &mut [u8],
    start: usize,
    text: &[u8],
    sheet: &[u64; 15],
    value: &mut usize,
) -> u8
    ensures { (result ≡ (reply (sentence_of buffer.old start text.now (handed_in text.now sheet.now))).number)
        × (value.new ≡ (reply (sentence_of buffer.old start text.now (handed_in text.now sheet.now))).value)
        × (buffer.new ≡ after_sentence buffer.old start text.now (handed_in text.now sheet.now)) }
{
    warnbox::sentences::warnbox_write(buffer, start, text, sheet, value)
}

// Counts the read-backs of a text; the value is their number.
#[unsafe(no_mangle)]
pub extern "C" fn warnbox_count(text: &[u8], value: &mut usize) -> u8
    ensures { (result ≡ (reply (giving count_of (read_back text.now 0))).number) × (value.new ≡ (reply (giving count_of (read_back text.now 0))).value) }
{
    warnbox::sentences::warnbox_count(text, value)
}

// Gives the sheet of a read-back of a text, counted from 1; the value is the number of read-backs.
#[unsafe(no_mangle)]
pub extern "C" fn warnbox_read_back(
    text: &[u8],
    k: usize,
    sheet: &mut [u64; 15],
    value: &mut usize,
) -> u8
    ensures { (result ≡ (reply (giving count_of (read_back text.now k))).number)
        × (value.new ≡ (reply (giving count_of (read_back text.now k))).value)
        × (sheet.new ≡ numbers_read sheet.old (read_back text.now k)) }
{
    warnbox::sentences::warnbox_read_back(text, k, sheet, value)
}

// Frees the used entries whose keep-until is below a time.
#[unsafe(no_mangle)]
pub extern "C" fn warnbox_sweep(entries: &mut [Entry], time: u64)
    ensures { entries.new ≡ swept_all time entries.old }
{
    warnbox::tables::warnbox_sweep(entries, time);
}

// The index of an event's first used entry, the number of entries where it has none.
#[unsafe(no_mangle)]
pub extern "C" fn warnbox_find_event(entries: &[Entry], key: u32, event: u32) -> usize
    ensures { result ≡ index_of key event entries.now }
{
    warnbox::tables::warnbox_find_event(entries, key, event)
}

// A packet is received. `verified` is the signature chip's verdict, any byte but 0 being yes; `keys` are the key ids that are listened to. Every
// refusal's offset is 0.
#[unsafe(no_mangle)]
pub extern "C" fn warnbox_receive(
    entries: &mut [Entry],
    packet: &[u8],
    keys: &[u32],
    verified: u8,
    clock: u64,
) -> u8
    ensures { (result ≡ answer_number (received entries.old packet.now keys.now (is_set verified) clock).answer) × (entries.new ≡ (received entries.old packet.now keys.now (is_set verified) clock).entries) }
{
    warnbox::tables::warnbox_receive(entries, packet, keys, verified, clock)
}
