// Numbers and durations read from their words.
ghost use Rattle.std.specs.Prelude.{◌≡◌, ◌+◌, ◌*◌, ◌<◌, length, drop};
ghost use Rattle.words.specs.Reading.{is_letter, letters, word_at, code_of, kept, worth, group_unit, step, total, number_at, unit_seconds, duration_at};

use crate::dictionary::{DAY, HOUR, HUNDRED, MILLION, MINUTE, SECOND, THOUSAND, UNKNOWN, code_of};
use text::part;
use words::{Groups, Quantity};

// Sums are kept below this.
const LIMIT: u64 = 4_294_967_296;

fn is_letter(b: u8) -> bool
    ensures { result ≡ is_letter b }
{
    (b'a' <= b) & (b <= b'z')
}

// The first offset from `at` on that holds no letter, or the end.
fn word_end(s: &[u8], at: usize) -> usize
    ensures { result ≡ at + letters (drop at s.now) }
{
    let mut i = at;
    while i < s.len() {
        if is_letter(s[i]) {
            i += 1;
        } else {
            return i;
        }
    }
    i
}

// The code of a word, and the offset after it.
#[derive(Drop)]
struct Word {
    code: usize,
    end: usize,
}

// The word after the space at an offset.
fn word_at(s: &[u8], at: usize) -> Word
    ensures { (result.code ≡ code_of (word_at (drop at s.now))) × (result.code < 40 → result.end ≡ at + (1 + length (word_at (drop at s.now)))) }
{
    if s.len() <= at {
        return Word {
            code: UNKNOWN,
            end: at,
        };
    }
    if s[at] != b' ' {
        return Word {
            code: UNKNOWN,
            end: at,
        };
    }
    let start = at + 1;
    let end = word_end(s, start);
    Word {
        code: code_of(part(s, start, end)),
        end: end,
    }
}

// What a word below hundred counts.
fn worth(w: usize) -> u64
    requires { w < 28 }
    ensures { result ≡ worth w }
{
    if w < 20 {
        return w as u64;
    }
    10 * (w as u64 - 18)
}

// By what the word of a thousands group multiplies it.
fn group_unit(w: usize) -> u64
    ensures { result ≡ group_unit w }
{
    if w == THOUSAND {
        return 1_000;
    }
    if w == MILLION {
        return 1_000_000;
    }
    1_000_000_000
}

// One number word more.
fn add_word(w: usize, g: Groups) -> Groups
    requires { (g.sum < 4_294_967_296) × (g.current < 4_294_967_296) }
    ensures { result ≡ step w g }
{
    if w < HUNDRED {
        return Groups {
            sum: g.sum,
            current: (g.current + worth(w)) % LIMIT,
        };
    }
    if w == HUNDRED {
        return Groups {
            sum: g.sum,
            current: g.current * 100 % LIMIT,
        };
    }
    Groups {
        sum: (g.sum + g.current * group_unit(w)) % LIMIT,
        current: 0,
    }
}

// The number that the groups make.
fn total(g: Groups) -> u32
    requires { (g.sum < 4_294_967_296) × (g.current < 4_294_967_296) }
    ensures { result ≡ total g }
{
    ((g.sum + g.current) % LIMIT) as u32
}

// Reads as many number words as stand at an offset.
pub fn number_at(s: &[u8], at: usize) -> Quantity
    ensures { result ≡ number_at at (drop at s.now) }
{
    let mut i = at;
    let mut g = Groups { sum: 0, current: 0 };
    loop {
        let w = word_at(s, i);
        if DAY <= w.code {
            return Quantity {
                value: total(g),
                end: i,
            };
        }
        g = add_word(w.code, g);
        i = w.end;
    }
}

// The seconds of a unit by its word; 0 for a word that is none.
fn unit_seconds(w: usize) -> u32
    ensures { result ≡ unit_seconds w }
{
    if w < DAY {
        return 0;
    }
    if w < HOUR {
        return 86_400;
    }
    if w < MINUTE {
        return 3_600;
    }
    if w < SECOND {
        return 60;
    }
    if w < UNKNOWN {
        return 1;
    }
    0
}

// The seconds of n units more.
fn add_count(sum: u32, n: u32, unit: u32) -> u32
    ensures { result ≡ kept (sum + n * unit) }
{
    ((sum as u64 + n as u64 * unit as u64) % LIMIT) as u32
}

// Reads as many counts as stand at an offset with a unit after each.
pub fn duration_at(s: &[u8], at: usize) -> Quantity
    ensures { result ≡ duration_at at (drop at s.now) }
{
    let mut i = at;
    let mut sum = 0;
    loop {
        let n = number_at(s, i);
        let w = word_at(s, n.end);
        let unit = unit_seconds(w.code);
        if unit == 0 {
            return Quantity { value: sum, end: i };
        }
        sum = add_count(sum, n.value, unit);
        i = w.end;
    }
}
