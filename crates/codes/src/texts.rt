// Codes by their texts, in the schema's spelling and in small letters.
ghost use Rattle.std.specs.Prelude.{◌≡◌, map, position};
ghost use Rattle.text.specs.Logic.{eql};
ghost use Rattle.text.specs.Search.{find};
ghost use Rattle.buffer.specs.Cursor.{Put};
ghost use Rattle.codes.specs.Lists.{codes, small_codes, is_number, code_of, small_code_of, small_text};

use crate::list;
use buffer::put;
use text::entry;

// The codes of a list, in the schema's order and spelling; none where there is no such list.
#[tactic(auto, unfolding(crate::specs::Lists::lists))]
fn codes(list: usize) -> &'static [&'static [u8]]
    ensures { map (λ t. t.now) result.now ≡ codes list }
{
    match list {
        list::STATUS => &[b"Actual", b"Exercise", b"System", b"Test", b"Draft"],
        list::MSG_TYPE => &[b"Alert", b"Update", b"Cancel", b"Ack", b"Error"],
        list::SCOPE => &[b"Public", b"Restricted", b"Private"],
        list::CATEGORY => &[
            b"Geo",
            b"Met",
            b"Safety",
            b"Security",
            b"Rescue",
            b"Fire",
            b"Health",
            b"Env",
            b"Transport",
            b"Infra",
            b"CBRNE",
            b"Other",
        ],
        list::RESPONSE_TYPE => &[
            b"Shelter",
            b"Evacuate",
            b"Prepare",
            b"Execute",
            b"Avoid",
            b"Monitor",
            b"Assess",
            b"AllClear",
            b"None",
        ],
        list::URGENCY => &[b"Immediate", b"Expected", b"Future", b"Past", b"Unknown"],
        list::SEVERITY => &[b"Extreme", b"Severe", b"Moderate", b"Minor", b"Unknown"],
        list::CERTAINTY => &[b"Observed", b"Likely", b"Possible", b"Unlikely", b"Unknown"],
        _ => &[],
    }
}

// The same codes in small letters.
#[tactic(auto, unfolding(crate::specs::Lists::lists))]
fn small_codes(list: usize) -> &'static [&'static [u8]]
    ensures { map (λ t. t.now) result.now ≡ small_codes list }
{
    match list {
        list::STATUS => &[b"actual", b"exercise", b"system", b"test", b"draft"],
        list::MSG_TYPE => &[b"alert", b"update", b"cancel", b"ack", b"error"],
        list::SCOPE => &[b"public", b"restricted", b"private"],
        list::CATEGORY => &[
            b"geo",
            b"met",
            b"safety",
            b"security",
            b"rescue",
            b"fire",
            b"health",
            b"env",
            b"transport",
            b"infra",
            b"cbrne",
            b"other",
        ],
        list::RESPONSE_TYPE => &[
            b"shelter",
            b"evacuate",
            b"prepare",
            b"execute",
            b"avoid",
            b"monitor",
            b"assess",
            b"allclear",
            b"none",
        ],
        list::URGENCY => &[b"immediate", b"expected", b"future", b"past", b"unknown"],
        list::SEVERITY => &[b"extreme", b"severe", b"moderate", b"minor", b"unknown"],
        list::CERTAINTY => &[b"observed", b"likely", b"possible", b"unlikely", b"unknown"],
        _ => &[],
    }
}

// The index of a text among texts.
fn index_of(texts: &[&[u8]], t: &[u8]) -> Option<usize>
    ensures { result ≡ position (λ text. eql t.now text.now) texts.now }
{
    texts.iter().position(|text| t == *text)
}

// The number of a text among texts, counted from 1; 0 where it isn't there.
fn number_of(texts: &[&[u8]], t: &[u8]) -> usize
    ensures { result ≡ find 1 t.now (map (λ text. text.now) texts.now) }
{
    match index_of(texts, t) {
        Some(i) => i + 1,
        None => 0,
    }
}

// Whether a list has a number.
#[tactic(auto, unfolding(crate::specs::Lists::is_number))]
pub fn is_number(list: usize, k: usize) -> bool
    ensures { result ≡ is_number list k }
{
    1 <= k && k <= codes(list).len()
}

// The number of a code, in the schema's spelling, in a list; 0 where it isn't there.
#[tactic(auto, unfolding(crate::specs::Lists::code_of))]
pub fn code_of(list: usize, t: &[u8]) -> usize
    ensures { result ≡ code_of list t.now }
{
    number_of(codes(list), t)
}

// The number of a code in small letters.
#[tactic(auto, unfolding(crate::specs::Lists::small_code_of))]
pub fn small_code_of(list: usize, t: &[u8]) -> usize
    ensures { result ≡ small_code_of list t.now }
{
    number_of(small_codes(list), t)
}

// The text of a number of a list, in small letters; none where the list has no such number.
#[tactic(auto, unfolding(crate::specs::Lists::small_text))]
fn small_text(list: usize, k: usize) -> &'static [u8]
    ensures { result.now ≡ small_text list k }
{
    if k == 0 {
        return b"";
    }
    entry(small_codes(list), k - 1)
}

// Writes the code of a number, in small letters, from `at` on; nothing where the list has no such number.
pub fn put_code(dst: &mut [u8], at: usize, list: usize, k: usize) -> usize
    ensures { Put dst.old at (small_text list k) dst.new result }
{
    put(dst, at, small_text(list, k))
}
