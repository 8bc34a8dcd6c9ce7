// The names line: which column has the periods, the budgets and the deadlines.
ghost use Rattle.std.specs.Prelude.{◌≡◌, cond, ltb, Some, None};
ghost use Rattle.reader.specs.Names.{column_in, columns_in, each_named};
ghost use Rattle.reader.specs.Parts.{names_line};

use text::bytes;

// Where each value stands in a line of values, from 0.
#[derive(Clone, Copy)]
pub struct Columns {
    pub period: usize,
    pub budget: usize,
    pub deadline: usize,
}

// The columns of a names line, and how many bytes the line has with its byte 10.
#[derive(Clone, Copy)]
pub struct NamesLine {
    pub columns: Columns,
    pub length: usize,
}

// Which of three fields, from 0, is the name, if one is.
fn column_in(name: &[u8], first: &[u8], second: &[u8], third: &[u8]) -> Option<usize>
    ensures { let column = column_in name.now first.now second.now third.now in
        result ≡ cond (ltb column 3) (Some column) None }
{
    if bytes::same(first, name) {
        return Some(0);
    }
    if bytes::same(second, name) {
        return Some(1);
    }
    if bytes::same(third, name) {
        return Some(2);
    }
    None
}

// Which of three fields is each name, if each is one of them.
fn columns_in(first: &[u8], second: &[u8], third: &[u8]) -> Option<Columns>
    ensures { let columns = columns_in first.now second.now third.now in
        result ≡ cond (each_named columns) (Some columns) None }
{
    let period = column_in(b"PERIOD", first, second, third)?;
    let budget = column_in(b"BUDGET", first, second, third)?;
    let deadline = column_in(b"DEADLINE", first, second, third)?;
    Some(Columns {
        period,
        budget,
        deadline,
    })
}

// The names line that a text begins with, if it begins with one. Its fields are cut out of the text, two up to a space and the last up to the byte 10: one that
// goes past the end of the line has a byte 10 in it, and is no name.
pub fn names_line(text: &[u8]) -> Option<NamesLine>
    ensures { result ≡ names_line text.now }
{
    let first = bytes::field_up_to(text, b' ');
    if text.len() <= first.len() {
        return None;
    }
    let rest = &text[first.len() + 1..];
    let second = bytes::field_up_to(rest, b' ');
    if rest.len() <= second.len() {
        return None;
    }
    let last = &rest[second.len() + 1..];
    let third = bytes::field_up_to(last, b'\n');
    if last.len() <= third.len() {
        return None;
    }
    let columns = columns_in(first, second, third)?;
    Some(NamesLine {
        columns,
        length: first.len() + 1 + second.len() + 1 + third.len() + 1,
    })
}
