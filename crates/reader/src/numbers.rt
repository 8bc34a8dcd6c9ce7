// A table's numbers from text, into three arrays that are lent: document 01, "The table as text".
ghost use Rattle.std.specs.Prelude.{◌≡◌, true, length};
ghost use Rattle.tasks.specs.Limits.{max_tasks};
ghost use Rattle.tasks.specs.Table.{empty_table};
ghost use Rattle.tasks.specs.Numbers.{periods_of, budgets_of, deadlines_of, tasks_from, numbers_of};
ghost use Rattle.reader.specs.Names.{each_named};
ghost use Rattle.reader.specs.Reading.{reading, value_lines};
ghost use Rattle.reader.specs.Parts.{reading_from};
ghost use Rattle.reader.specs.Counted.{counted_values_of, counted_in};

use crate::names::{Columns, NamesLine};
use crate::{names, values};
use tasks::limits::{MAX_TASKS, MAX_TEXT_LENGTH};
use tasks::refusals::{Reason, Refusal};
use tasks::table::{PerTask, TaskNumbers};

// Makes all numbers 0, as those of the empty table are.
#[tactic(auto, unfolding(tasks::specs::Table::empty_table, tasks::specs::Table::zero_task, tasks::specs::Numbers::periods_of, tasks::specs::Numbers::budgets_of, tasks::specs::Numbers::deadlines_of))]
fn clear(periods: &mut PerTask, budgets: &mut PerTask, deadlines: &mut PerTask)
    ensures { let none = empty_table.tasks in
        (periods.new ≡ periods_of none) × (budgets.new ≡ budgets_of none) × (deadlines.new ≡ deadlines_of none) }
{
    *periods = [0; MAX_TASKS];
    *budgets = [0; MAX_TASKS];
    *deadlines = [0; MAX_TASKS];
}

// Value lines in turn, into arrays of zeros, and how many there are: each line's reader gets the part of the text after the line before.
fn value_lines(
    text: &[u8],
    columns: Columns,
    periods: &mut PerTask,
    budgets: &mut PerTask,
    deadlines: &mut PerTask,
) -> Result<usize, Refusal>
    requires named { each_named columns ≡ true }
    requires zeros { let none = empty_table.tasks in
        (periods.old ≡ periods_of none) × (budgets.old ≡ budgets_of none) × (deadlines.old ≡ deadlines_of none) }
    ensures lines_read { reading_from result (tasks_from periods.new budgets.new deadlines.new) ≡ value_lines columns max_tasks empty_table text.now }
    ensures long { (length periods.new ≡ max_tasks) × (length budgets.new ≡ max_tasks) × (length deadlines.new ≡ max_tasks) }
{
    let mut count: usize = 0;
    let mut rest = text;
    // No `for`: each turn takes a line off the rest, which ends the loop; `count` is how many tasks there are.
    while !rest.is_empty() {
        let place = count as u32 + 1;
        if MAX_TASKS <= count {
            return Err(Reason::TooManyTasks.at(place));
        }
        let Some(line) = values::value_line(rest) else {
            return Err(Reason::BadValueLine.at(place));
        };
        let task = values::task_of(line, columns);
        if !task.in_range() {
            return Err(Reason::TaskOutOfRange.at(place));
        }
        periods[count] = task.period;
        budgets[count] = task.budget;
        deadlines[count] = task.deadline;
        count += 1;
        rest = &rest[line.length + 1..];
    }
    if count == 0 {
        return Err(Reason::NoTask.at(0));
    }
    Ok(count)
}

// Reads the table of a text into arrays of zeros: how many tasks it has. Where reading is refused they keep the numbers of the lines before.
pub(crate) fn fill(
    text: &[u8],
    periods: &mut PerTask,
    budgets: &mut PerTask,
    deadlines: &mut PerTask,
) -> Result<usize, Refusal>
    requires zeros { let none = empty_table.tasks in
        (periods.old ≡ periods_of none) × (budgets.old ≡ budgets_of none) × (deadlines.old ≡ deadlines_of none) }
    ensures text_read { reading_from result (tasks_from periods.new budgets.new deadlines.new) ≡ reading text.now }
    ensures long { (length periods.new ≡ max_tasks) × (length budgets.new ≡ max_tasks) × (length deadlines.new ≡ max_tasks) }
{
    if MAX_TEXT_LENGTH < text.len() {
        return Err(Reason::TextTooLong.at(0));
    }
    let Some(NamesLine { columns, length }) = names::names_line(text) else {
        return Err(Reason::BadNamesLine.at(0));
    };
    value_lines(&text[length..], columns, periods, budgets, deadlines)
}

// Reads the numbers of a text's table into three arrays: T, C and D of each task by its index, and 0 past the last one. Where reading is refused all are 0.
// It answers how many tasks the table has.
pub fn read_arrays(
    text: &[u8],
    periods: &mut PerTask,
    budgets: &mut PerTask,
    deadlines: &mut PerTask,
) -> Result<usize, Refusal>
    ensures counted { counted_values_of result ≡ counted_in (reading text.now) }
    ensures periods { periods.new ≡ periods_of (reading text.now).table.tasks }
    ensures budgets { budgets.new ≡ budgets_of (reading text.now).table.tasks }
    ensures deadlines { deadlines.new ≡ deadlines_of (reading text.now).table.tasks }
{
    clear(periods, budgets, deadlines);
    let counted = fill(text, periods, budgets, deadlines);
    let refused = counted.is_err();
    if refused {
        clear(periods, budgets, deadlines);
    }
    counted
}

// The same into the arrays of one value.
pub fn read_numbers(text: &[u8], numbers: &mut TaskNumbers) -> Result<usize, Refusal>
    ensures counted { counted_values_of result ≡ counted_in (reading text.now) }
    ensures filled { numbers.new ≡ numbers_of (reading text.now).table.tasks }
{
    read_arrays(
        text,
        &mut numbers.periods,
        &mut numbers.budgets,
        &mut numbers.deadlines,
    )
}
