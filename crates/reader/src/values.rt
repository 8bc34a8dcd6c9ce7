// Value lines: three values, and the task that they make.
ghost use Rattle.std.specs.Prelude.{◌≡◌, true};
ghost use Rattle.reader.specs.Names.{each_named};
ghost use Rattle.reader.specs.Parts.{value_up_to, value_line, task_in};

use crate::names::Columns;
use tasks::task::Task;
use text::fields::ThreeNumbers;
use text::number::LeadingNumber;

// The longest value, in digits.
const VALUE_DIGITS: usize = 7;

// The value that stands before the first byte `end` of a text, if one does and is ended. The loop ends at the eighth byte, so that the compiler can
// unroll it where it is used: with `text::number::number_up_to`, or not inlined, reading takes a fifth longer.
#[inline(always)]
fn value_up_to(text: &[u8], end: u8) -> Option<LeadingNumber>
    ensures { result ≡ value_up_to end text.now }
{
    let mut number: u32 = 0;
    for (i, &byte) in text.iter().enumerate() {
        if byte == end {
            if i == 0 {
                return None;
            }
            return Some(LeadingNumber { number, length: i });
        }
        if byte < b'0' || b'9' < byte {
            return None;
        }
        if VALUE_DIGITS <= i {
            return None;
        }
        if number == 0 && 0 < i {
            return None;
        }
        number = number * 10 + (byte - b'0') as u32;
    }
    None
}

// The value line that a text begins with, if it begins with one, which is ended. Its length is without its byte 10.
pub(crate) fn value_line(text: &[u8]) -> Option<ThreeNumbers>
    ensures { result ≡ value_line text.now }
{
    let first = value_up_to(text, b' ')?;
    let rest = &text[first.length + 1..];
    let second = value_up_to(rest, b' ')?;
    let last = &rest[second.length + 1..];
    let third = value_up_to(last, b'\n')?;
    Some(ThreeNumbers {
        first: first.number,
        second: second.number,
        third: third.number,
        length: first.length + 1 + second.length + 1 + third.length,
    })
}

// The task whose numbers stand in the columns of a value line.
#[tactic(auto, using(crate::proofs::ValueLine::columns_below), unfolding(crate::specs::Parts::task_in))]
pub(crate) fn task_of(line: ThreeNumbers, columns: Columns) -> Task
    requires { each_named columns ≡ true }
    ensures { result ≡ task_in columns line }
{
    let values = [line.first, line.second, line.third];
    Task {
        period: values[columns.period],
        budget: values[columns.budget],
        deadline: values[columns.deadline],
    }
}
