// A table from text: document 01, "The table as text".
#![tactic(auto)]

use tasks::outcome::Outcome;
use tasks::table::{Table, TaskNumbers};

mod names;
pub mod numbers;
mod values;

ghost use Rattle.std.specs.Prelude.{◌≡◌};
ghost use Rattle.reader.specs.Reading.{reading};

// What reading a text gives: the table, or a table of zeros and the refusal. No Result, since "A refused reading hands back a table of zero tasks with all
// its numbers 0" (document 01), which `read` promises.
#[derive(Clone, Copy)]
pub struct Reading {
    pub table: Table,
    pub outcome: Outcome,
}

// The table of a text, or the refusal.
pub fn read(text: &[u8]) -> Reading
    ensures { result ≡ reading text.now }
{
    let mut numbers = TaskNumbers::zero();
    match numbers::fill(
        text,
        &mut numbers.periods,
        &mut numbers.budgets,
        &mut numbers.deadlines,
    ) {
        Ok(count) => Reading {
            table: numbers.table(count),
            outcome: Ok(()),
        },
        Err(refusal) => Reading {
            table: Table::empty(),
            outcome: Err(refusal),
        },
    }
}
