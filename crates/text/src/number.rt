// Numbers of a text, in base ten, with a limit of digits and a largest value.
ghost use Rattle.std.specs.Prelude.{◌≡◌};
ghost use Rattle.text.specs.Number.{is_digit, number_of, number_up_to, number_after};

use crate::bytes::begins_with;

// How many digits a number may have, and the largest that it may be.
#[derive(Clone, Copy)]
pub struct Limits {
    pub digits: usize,
    pub largest: u32,
}

// A number at the start of a text, and how many bytes it has there.
#[derive(Clone, Copy)]
pub struct LeadingNumber {
    pub number: u32,
    pub length: usize,
}

// Whether a byte is a decimal digit.
#[tactic(auto, unfolding(crate::specs::Number::is_digit))]
fn is_digit(byte: u8) -> bool
    ensures { result ≡ is_digit byte }
{
    b'0' <= byte && byte <= b'9'
}

// The number that stands before the first byte `end` of a text, or is all of the text where there is none.
pub fn number_up_to(text: &[u8], end: u8, limits: Limits) -> Option<LeadingNumber>
    ensures { result ≡ number_up_to limits.digits limits.largest end text.now }
{
    let mut number: u32 = 0;
    let mut length: usize = 0;
    for &byte in text {
        if byte == end {
            break;
        }
        if !is_digit(byte) {
            return None;
        }
        let more = number as u64 * 10 + (byte - b'0') as u64;
        if (limits.largest as u64) < more {
            return None;
        }
        number = more as u32;
        length += 1;
    }
    if length == 0 || limits.digits < length {
        return None;
    }
    if text[0] == b'0' && 1 < length {
        return None;
    }
    Some(LeadingNumber { number, length })
}

// The number that a field is.
pub fn number_of(field: &[u8], limits: Limits) -> Option<u32>
    ensures { result ≡ number_of limits.digits limits.largest field.now }
{
    let LeadingNumber { number, length } = number_up_to(field, b' ', limits)?;
    if length < field.len() {
        return None;
    }
    Some(number)
}

// The number of a line that is a word and one number: the word has its space.
#[tactic(auto, using(crate::proofs::WordLaws::not_longer), unfolding(crate::specs::Number::number_after))]
pub fn number_after(line: &[u8], word: &[u8], limits: Limits) -> Option<u32>
    ensures { result ≡ number_after limits.digits limits.largest word.now line.now }
{
    if !begins_with(line, word) {
        return None;
    }
    number_of(&line[word.len()..], limits)
}
