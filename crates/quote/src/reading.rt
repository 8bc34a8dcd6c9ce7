// Ranges from text: docs/HANDBOOK.md, "Quotes over ranges".
ghost use Rattle.std.specs.Prelude.{◌<◌, ◌≡◌};
ghost use Rattle.tasks.specs.Limits.{max_tasks};
ghost use Rattle.ranges.specs.Ranges.{empty_ranges, with_ranged_task};
ghost use Rattle.quote.specs.Reading.{range_lines, reading};
ghost use Rattle.quote.specs.Parts.{range_line};

use ranges::table::RangedTable;
use ranges::task::{Range, RangedTask};
use tasks::limits::{MAX_TASKS, MAX_TEXT_LENGTH};
use tasks::refusals::{Reason, Refusal};
use text::bytes;
use text::fields::fill_from_line;
use text::number::Limits;

// A value has at most 7 digits, and none of 7 digits is too large.
const VALUES: Limits = Limits {
    digits: 7,
    largest: 9_999_999,
};

// The task of a value line, and how many bytes the line has with its byte 10.
#[derive(Clone, Copy)]
struct RangeLine {
    task: RangedTask,
    length: usize,
}

// The value line that a text begins with, if it begins with one, which is ended.
fn range_line(text: &[u8]) -> Option<RangeLine>
    ensures { result ≡ range_line text.now }
{
    let length = bytes::find(text, b'\n');
    if text.len() <= length {
        return None;
    }
    let mut values = [0u32; 5];
    if !fill_from_line(&text[..length], &mut values, VALUES) {
        return None;
    }
    Some(RangeLine {
        task: RangedTask {
            period: Range {
                least: values[0],
                most: values[1],
            },
            budget: Range {
                least: values[2],
                most: values[3],
            },
            deadline: values[4],
        },
        length: length + 1,
    })
}

// The ranges with a task more.
#[tactic(auto, unfolding(ranges::specs::Ranges::with_ranged_task))]
fn with_task(mut table: RangedTable, task: RangedTask) -> RangedTable
    requires { table.count < max_tasks }
    ensures { result ≡ with_ranged_task table task }
{
    table.tasks[table.count] = task;
    table.count += 1;
    table
}

// Value lines in turn: each line's reader gets the part of the text after the line before.
fn range_lines(text: &[u8]) -> Result<RangedTable, Refusal>
    ensures { result ≡ range_lines max_tasks empty_ranges text.now }
{
    let mut table = RangedTable::empty();
    let mut rest = text;
    // No `for`: each turn takes a line off the rest, which ends the loop.
    while !rest.is_empty() {
        let place = table.count as u32 + 1;
        if MAX_TASKS <= table.count {
            return Err(Reason::TooManyTasks.at(place));
        }
        let Some(RangeLine { task, length }) = range_line(rest) else {
            return Err(Reason::BadValueLine.at(place));
        };
        task.check(place)?;
        table = with_task(table, task);
        rest = &rest[length..];
    }
    if table.count == 0 {
        return Err(Reason::NoTask.at(0));
    }
    Ok(table)
}

// The ranges of a text, or why they are not read.
pub fn read(text: &[u8]) -> Result<RangedTable, Refusal>
    ensures { result ≡ reading text.now }
{
    if MAX_TEXT_LENGTH < text.len() {
        return Err(Reason::TextTooLong.at(0));
    }
    let length = bytes::find(text, b'\n');
    if text.len() <= length {
        return Err(Reason::BadNamesLine.at(0));
    }
    let names = b"LEAST_PERIOD MOST_PERIOD LEAST_BUDGET MOST_BUDGET DEADLINE";
    if !bytes::same(&text[..length], names) {
        return Err(Reason::BadNamesLine.at(0));
    }
    range_lines(&text[length + 1..])
}
