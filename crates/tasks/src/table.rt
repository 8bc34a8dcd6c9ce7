// A table of tasks.
ghost use Rattle.std.specs.Prelude.{◌≡◌, ◌<◌};
ghost use Rattle.tasks.specs.Limits.{max_tasks};
ghost use Rattle.tasks.specs.Table.{empty_table};
ghost use Rattle.tasks.specs.Numbers.{zero_numbers, numbers_at, numbered_table};

use crate::limits::MAX_TASKS;
use crate::task::Task;

// The first `count` entries are the table's tasks; the entries after them are no part of it. An array and no Vec: on a heap each call that adds a task
// could fail.
#[derive(Clone, Copy)]
pub struct Table {
    pub count: usize,
    pub tasks: [Task; MAX_TASKS],
}

// A number for each task, by its index.
pub type PerTask = [u32; MAX_TASKS];

// The numbers of a table's entries in flat arrays: T, C and D by the task's index. The arrays are lent where a table would be copied.
#[derive(Clone, Copy)]
pub struct TaskNumbers {
    pub periods: PerTask,
    pub budgets: PerTask,
    pub deadlines: PerTask,
}

impl TaskNumbers {
    // Those of the empty table, which are all 0.
    #[tactic(auto, unfolding(crate::specs::Numbers::zero_numbers))]
    pub fn zero() -> Self
        ensures { result ≡ zero_numbers }
    {
        TaskNumbers {
            periods: [0; MAX_TASKS],
            budgets: [0; MAX_TASKS],
            deadlines: [0; MAX_TASKS],
        }
    }

    // The task at an index.
    #[tactic(auto, unfolding(crate::specs::Numbers::numbers_at))]
    pub(crate) fn at(&self, i: usize) -> Task
        requires { i < max_tasks }
        ensures { result ≡ numbers_at self.now i }
    {
        Task {
            period: self.periods[i],
            budget: self.budgets[i],
            deadline: self.deadlines[i],
        }
    }

    // The table of so many tasks with these numbers.
    pub fn table(&self, count: usize) -> Table
        ensures { result ≡ numbered_table self.now count }
    {
        let mut table = Table::empty();
        table.count = count;
        for i in 0..MAX_TASKS {
            table.tasks[i] = self.at(i);
        }
        table
    }
}

impl Table {
    // The table of zero tasks with all its numbers 0.
    #[tactic(auto, unfolding(crate::specs::Table::empty_table, crate::specs::Table::zero_task))]
    pub fn empty() -> Self
        ensures { result ≡ empty_table }
    {
        let zero = Task {
            period: 0,
            budget: 0,
            deadline: 0,
        };
        Table {
            count: 0,
            tasks: [zero; MAX_TASKS],
        }
    }
}
