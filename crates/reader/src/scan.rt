// What leads a text, and what stands after it: literals are passed over by their length. Past the end a text holds nothing.
ghost use Rattle.std.specs.Prelude.{◌≡◌, length, drop, not, eqb};
ghost use Rattle.std.specs.List.{prefix_len};
ghost use Rattle.codes.specs.Lists.{small_code_of};
ghost use Rattle.sheet.specs.Reading.{word_length, word_of, number_after, rest_after, byte_of};

use codes::Code;
use codes::texts::small_code_of;
use spoken::read_number;

// How many bytes stand before the next comma, or the end.
fn word_length(t: &[u8]) -> usize
    ensures { result ≡ prefix_len (λ b. not (eqb b 44)) t.now }
{
    t.iter().take_while(|b| **b != b',').count()
}

// The leading word, up to the next comma or the end, and what stands after it.
#[tactic(auto, using(crate::proofs::Words::word_length_is), unfolding(sheet::specs::Reading::word_of))]
pub fn split_word(t: &[u8]) -> (&[u8], &[u8])
    ensures { (result.0.now ≡ word_of t.now) × (result.1.now ≡ drop (word_length t.now) t.now) }
{
    let end = word_length(t);
    (text::first(t, end), text::skip(t, end))
}

// What stands after a literal.
pub fn after<'a>(t: &'a [u8], literal: &[u8]) -> &'a [u8]
    ensures { result.now ≡ drop (length literal.now) t.now }
{
    text::skip(t, literal.len())
}

// The number after a literal, and what stands after it.
#[tactic(auto, unfolding(sheet::specs::Reading::number_after, sheet::specs::Reading::rest_after))]
pub fn number_after<'a>(t: &'a [u8], literal: &[u8]) -> (u32, &'a [u8])
    ensures { (result.0 ≡ number_after (length literal.now) t.now) × (result.1.now ≡ rest_after (length literal.now) t.now) }
{
    let t = after(t, literal);
    let number = read_number(t, 0);
    (number.value, text::skip(t, number.end))
}

// The low byte of the number after a literal, and what stands after the number.
pub fn byte_after<'a>(t: &'a [u8], literal: &[u8]) -> (u8, &'a [u8])
    ensures { (result.0 ≡ byte_of (number_after (length literal.now) t.now)) × (result.1.now ≡ rest_after (length literal.now) t.now) }
{
    let (number, rest) = number_after(t, literal);
    ((number % 0x100) as u8, rest)
}

// The code that the word after a literal says, and what stands after the word.
pub fn code_after<'a, C: Code>(t: &'a [u8], literal: &[u8]) -> (C, &'a [u8])
    ensures { let words = drop (length literal.now) t.now in
        (result.0 ≡ C.value_at (small_code_of C.LIST (word_of words))) × (result.1.now ≡ drop (word_length words) words) }
{
    let (word, rest) = split_word(after(t, literal));
    (C::from_number(small_code_of(C::LIST, word)), rest)
}
