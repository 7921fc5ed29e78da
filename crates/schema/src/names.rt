// Names of elements.
ghost use Rattle.std.specs.Prelude.{◌≡◌, ◌+◌, ◌*◌, ◌%◌, ◌≤◌, ◌<◌};
ghost use Rattle.text.specs.Logic.{eql};
ghost use Rattle.schema.specs.Classes.{name_of, class_of};
ghost use Rattle.schema.specs.Tables.{Hashed};

// The names in the order of their classes; that of class 0 is empty.
const NAMES: [&[u8]; 51] = [
    b"",
    b"alert",
    b"info",
    b"resource",
    b"area",
    b"eventCode",
    b"parameter",
    b"geocode",
    b"identifier",
    b"sender",
    b"sent",
    b"status",
    b"msgType",
    b"source",
    b"scope",
    b"restriction",
    b"addresses",
    b"code",
    b"note",
    b"references",
    b"incidents",
    b"language",
    b"category",
    b"event",
    b"responseType",
    b"urgency",
    b"severity",
    b"certainty",
    b"audience",
    b"effective",
    b"onset",
    b"expires",
    b"senderName",
    b"headline",
    b"description",
    b"instruction",
    b"web",
    b"contact",
    b"resourceDesc",
    b"mimeType",
    b"size",
    b"uri",
    b"derefUri",
    b"digest",
    b"areaDesc",
    b"polygon",
    b"circle",
    b"altitude",
    b"ceiling",
    b"valueName",
    b"value",
];

// The only class that a name can have, by a hash of its length and three of its letters.
const HASHED: [u8; 128] = [
    0, 30, 0, 0, 37, 18, 24, 0, 0, 21, 0, 0, 0, 0, 0, 0, 0, 39, 36, 10, 0, 0, 0, 0, 0, 31, 48, 9,
    46, 0, 0, 0, 34, 0, 47, 0, 0, 0, 0, 6, 0, 0, 0, 19, 5, 4, 0, 29, 0, 0, 0, 0, 20, 0, 33, 0, 14,
    0, 15, 0, 0, 1, 8, 0, 0, 0, 41, 0, 22, 0, 0, 0, 0, 27, 7, 0, 0, 0, 40, 0, 50, 0, 0, 0, 0, 13,
    0, 35, 25, 42, 3, 0, 17, 0, 0, 16, 0, 0, 0, 45, 0, 0, 0, 44, 0, 23, 2, 0, 32, 0, 0, 43, 0, 0,
    28, 0, 12, 0, 0, 0, 38, 0, 26, 11, 49, 0, 0, 0,
];

// Whether a text is the name of a class; a number that is no class has the empty name.
#[tactic(auto, unfolding(crate::specs::Classes::names))]
pub fn is_named(t: &[u8], class: usize) -> bool
    ensures { result ≡ eql t.now (name_of class) }
{
    text::equals(t, text::entry(&NAMES, class))
}

// A hash of a text's length and three of its letters.
fn hash(n: usize, first: u8, third: u8, last: u8) -> usize
    requires { n ≤ 12 }
    ensures { result ≡ (11 * (first + n) + 3 * third + 7 * last) % 128 }
{
    (11 * (first as usize + n) + 3 * (third as usize) + 7 * (last as usize)) % 128
}

// The only class that a name can have if it has one.
fn candidate(t: &[u8], hashed: &[u8; 128]) -> usize
    requires { Hashed hashed.now }
    ensures { (result < 51) × (((class_of t.now ≡ 0) → ⊥) → result ≡ class_of t.now) }
{
    let n = t.len();
    if n < 3 || 12 < n {
        return 0;
    }
    hashed[hash(n, t[0], t[2], t[n - 1])] as usize
}

// The class of a name, 0 where no element has it.
pub fn class_of(t: &[u8]) -> usize
    ensures { result ≡ class_of t.now }
{
    let class = candidate(t, &HASHED);
    if is_named(t, class) { class } else { 0 }
}
