// A table's numbers in flat arrays, which are lent and not copied. The loops over them take several tasks at once
// (docs/BENCHMARKS.md, "Verdicts"), which they could not over an array of tasks.
ghost use Rattle.std.specs.Prelude.{◌≤◌, ◌≡◌};
ghost use Rattle.tasks.specs.Limits.{max_tasks};
ghost use Rattle.judge.specs.Listed.{listed, SameNumbers, Ranges};

use tasks::table::{PerTask, Table, TaskNumbers};

// T, C and D of each task of a table that can be judged, by the task's index: those of the first `count` tasks.
#[derive(Clone, Copy)]
pub(crate) struct Numbers<'a> {
    pub(crate) periods: &'a PerTask,
    pub(crate) budgets: &'a PerTask,
    pub(crate) deadlines: &'a PerTask,
    pub(crate) count: usize,
    ghost few: { count ≤ max_tasks },
    ghost in_range: { Ranges count periods.now budgets.now deadlines.now },
}

impl<'a> Numbers<'a> {
    ghost use Rattle.judge.specs.Numbers.{set_of};

    // Those of the first `count` tasks.
    pub(crate) fn of(numbers: &'a TaskNumbers, count: usize) -> Self
        requires few { count ≤ max_tasks }
        requires in_range { Ranges count numbers.now.periods numbers.now.budgets numbers.now.deadlines }
        ensures { set_of result ≡ listed numbers.now.periods numbers.now.budgets numbers.now.deadlines count }
    {
        Numbers {
            periods: &numbers.periods,
            budgets: &numbers.budgets,
            deadlines: &numbers.deadlines,
            count,
        }
    }
}

// The numbers of a table's tasks.
pub(crate) fn numbers_of(table: &Table) -> TaskNumbers
    requires { table.now.count ≤ max_tasks }
    ensures { SameNumbers table.now.tasks table.now.count result.periods result.budgets result.deadlines }
{
    let mut numbers = TaskNumbers::zero();
    for i in 0..table.count {
        let task = table.tasks[i];
        numbers.periods[i] = task.period;
        numbers.budgets[i] = task.budget;
        numbers.deadlines[i] = task.deadline;
    }
    numbers
}
