// The machine, and the numbers of its tasks.
ghost use Rattle.std.specs.Prelude.{◌<◌, ◌≡◌};
ghost use Rattle.tasks.specs.Limits.{max_tasks};
ghost use Rattle.machine.specs.Machine.{with_job, in_table};

use job::job::Job;
use tasks::limits::MAX_TASKS;
use tasks::table::{PerTask, Table};
use tasks::task::Task;

// The table, the number of cores, for each task its job and its core in the last accepted slot, 0 for none, and the task that an offer left, if one did.
// Entries past the table's count are no part of it. Lists side by side, as document 01 tells the machine's parts, and as its definitions and theorems read.
#[derive(Clone, Copy)]
pub struct Machine {
    pub table: Table,
    pub cores: u32,
    pub jobs: [Job; MAX_TASKS],
    pub assigned: PerTask,
    pub held: Option<Task>,
}

impl Machine {
    // Whether the table has a task of this number, from 1.
    #[tactic(auto, unfolding(crate::specs::Machine::in_table))]
    pub fn in_table(self, number: u32) -> bool
        ensures { result ≡ in_table self number }
    {
        1 <= number && number as usize <= self.table.count
    }

    // The machine with another job at an index.
    #[tactic(auto, unfolding(crate::specs::Machine::with_job))]
    pub(crate) fn with_job(mut self, i: usize, job: Job) -> Self
        requires { i < max_tasks }
        ensures { result ≡ with_job self i job }
    {
        self.jobs[i] = job;
        self
    }
}
