// The words of numbers and units. A word's code is its index among them.
ghost use Rattle.std.specs.Prelude.{◌≡◌, [], ◌∷◌, ◌<◌};
ghost use Rattle.buffer.specs.Cursor.{Put};
ghost use Rattle.words.specs.Words.{word, spaced};
ghost use Rattle.words.specs.Reading.{code_of};

use buffer::put;
use text::entry;

// All words in the order of their codes.
const WORDS: [&[u8]; 40] = [
    b"zero",
    b"one",
    b"two",
    b"three",
    b"four",
    b"five",
    b"six",
    b"seven",
    b"eight",
    b"nine",
    b"ten",
    b"eleven",
    b"twelve",
    b"thirteen",
    b"fourteen",
    b"fifteen",
    b"sixteen",
    b"seventeen",
    b"eighteen",
    b"nineteen",
    b"twenty",
    b"thirty",
    b"forty",
    b"fifty",
    b"sixty",
    b"seventy",
    b"eighty",
    b"ninety",
    b"hundred",
    b"thousand",
    b"million",
    b"billion",
    b"day",
    b"days",
    b"hour",
    b"hours",
    b"minute",
    b"minutes",
    b"second",
    b"seconds",
];

// The code of a word by its length, from 3 letters on, and a hash of its letters. No two words of one length have the same hash.
const HASHED: [[u8; 18]; 7] = [
    [10, 2, 0, 0, 1, 0, 0, 6, 0, 0, 0, 0, 0, 0, 0, 32, 0, 0],
    [0, 9, 0, 0, 0, 0, 0, 0, 0, 33, 0, 5, 4, 0, 34, 0, 0, 0],
    [0, 22, 0, 3, 0, 0, 0, 8, 24, 0, 0, 0, 0, 23, 0, 35, 0, 7],
    [36, 0, 0, 27, 0, 21, 0, 38, 0, 12, 0, 20, 26, 11, 0, 0, 0, 0],
    [0, 0, 15, 0, 39, 0, 28, 0, 0, 30, 25, 0, 0, 0, 37, 16, 31, 0],
    [0, 18, 29, 0, 0, 0, 0, 0, 14, 0, 19, 0, 13, 0, 0, 0, 0, 0],
    [0, 0, 0, 0, 0, 0, 0, 0, 0, 0, 0, 0, 0, 0, 0, 0, 0, 17],
];

// The codes that writers and readers name. The word for n tens has the code TENS + n.
pub const TENS: usize = 18;

pub const HUNDRED: usize = 28;

pub const THOUSAND: usize = 29;

pub const MILLION: usize = 30;

pub const BILLION: usize = 31;

pub const DAY: usize = 32;

pub const DAYS: usize = 33;

pub const HOUR: usize = 34;

pub const HOURS: usize = 35;

pub const MINUTE: usize = 36;

pub const MINUTES: usize = 37;

pub const SECOND: usize = 38;

pub const SECONDS: usize = 39;

// The code of any other word: the number of the words.
pub const UNKNOWN: usize = 40;

// The word of a code; empty where there is none.
#[tactic(auto, unfolding(words::specs::Words::dictionary, words::specs::Words::word))]
fn word_of(w: usize) -> &'static [u8]
    ensures { result.now ≡ word w }
{
    entry(&WORDS, w)
}

// Writes the word of code w after a space.
pub fn put_word(dst: &mut [u8], at: usize, w: usize) -> usize
    ensures { Put dst.old at (spaced (w ∷ [])) dst.new result }
{
    let a = put(dst, at, b" ");
    put(dst, a, word_of(w))
}

// The only code that a word can have if it has one.
fn candidate(word: &[u8]) -> usize
    ensures { (result < 40) × (code_of word.now < 40 → result ≡ code_of word.now) }
{
    let [first, second, .., last] = word else {
        return 0;
    };
    let hash = (*first as usize + 4 * (*second as usize) + *last as usize) % 18;
    match HASHED.get(word.len() - 3) {
        Some(codes) => codes[hash] as usize,
        None => 0,
    }
}

// The code of a word; UNKNOWN where it is none of the words.
pub fn code_of(word: &[u8]) -> usize
    ensures { result ≡ code_of word.now }
{
    let w = candidate(word);
    if word == word_of(w) { w } else { UNKNOWN }
}
