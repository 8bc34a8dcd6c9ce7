// Lines of numbers, with one space between them.
ghost use Rattle.std.specs.Prelude.{◌≡◌};
ghost use Rattle.text.specs.Fields.{three_numbers, FilledFromLine};

use crate::number::{LeadingNumber, Limits, number_up_to};

// The numbers of a line of three, in their order, and how many bytes the line has.
#[derive(Clone, Copy)]
pub struct ThreeNumbers {
    pub first: u32,
    pub second: u32,
    pub third: u32,
    pub length: usize,
}

// The numbers of the first line of a text, which ends before the first byte 10 or where the text does, if it is three numbers.
pub fn three_numbers(text: &[u8], limits: Limits) -> Option<ThreeNumbers>
    ensures { result ≡ three_numbers limits.digits limits.largest text.now }
{
    let first = number_up_to(text, b' ', limits)?;
    if text.len() <= first.length {
        return None;
    }
    let rest = &text[first.length + 1..];
    let second = number_up_to(rest, b' ', limits)?;
    if rest.len() <= second.length {
        return None;
    }
    let last = &rest[second.length + 1..];
    let third = number_up_to(last, b'\n', limits)?;
    Some(ThreeNumbers {
        first: first.number,
        second: second.number,
        third: third.number,
        length: first.length + 1 + second.length + 1 + third.length,
    })
}

// Whether a line, which stands here without its byte 10, is as many numbers as the array has entries. The numbers that it begins with are then the
// array's first entries, up to the first field that is none; where it is as many, they are all of them. A flag and no Option: what
// the array holds is promised where the answer is false too.
pub fn fill_from_line(line: &[u8], numbers: &mut [u32], limits: Limits) -> bool
    ensures { FilledFromLine limits.digits limits.largest line.now numbers.old numbers.new result }
{
    let mut rest = line;
    for i in 0..numbers.len() {
        let Some(LeadingNumber { number, length }) = number_up_to(rest, b' ', limits) else {
            return false;
        };
        numbers[i] = number;
        if rest.len() <= length {
            return i + 1 == numbers.len();
        }
        rest = &rest[length + 1..];
    }
    false
}
