// How many tasks may turn urgent.
ghost use Rattle.std.specs.Prelude.{◌≤◌, ◌≡◌, Ok};
ghost use Rattle.tasks.specs.Limits.{max_cores};
ghost use Rattle.tasks.specs.Check.{checked};
ghost use Rattle.tasks.specs.TaskSet.{tasks_of};
ghost use Rattle.edzl.specs.Window.{count_urgent, no_slack};

use crate::numbers::{Numbers, numbers_of};
use edzl::own_part;
use tasks::limits::MAX_TASKS;
use tasks::table::{PerTask, Table};

impl<'a> Numbers<'a> {
    ghost use Rattle.judge.specs.Numbers.{set_of};
    ghost use Rattle.judge.specs.Parts.{count_by_sums};

    // How many tasks have a sum over the others that is at least `cores` times their spare. The sums count the task itself
    // too, so its own part stands on both sides.
    pub(crate) fn count_by_sums(&self, sums: &PerTask, cores: u32) -> u32
        requires { cores ≤ max_cores }
        ensures { result ≡ count_by_sums (set_of self.now) cores sums.now }
    {
        let mut urgent: u32 = 0;
        for k in 0..self.count {
            let budget = self.budgets[k];
            let spare = self.deadlines[k] - budget;
            let own = own_part(budget, spare);
            if cores * spare + own <= sums[k] {
                urgent += 1;
            }
        }
        urgent
    }
}

// How many of the table's tasks may turn urgent. The numbers are copied once, and lent from then on.
#[tactic(auto, using(tasks::proofs::Checked::passes, crate::proofs::Listed::ranges))]
pub(crate) fn count_urgent(table: &Table, cores: u32) -> u32
    requires { checked table.now cores ≡ Ok tt }
    ensures { result ≡ count_urgent (tasks_of table.now) no_slack cores }
{
    let own = numbers_of(table);
    let numbers = Numbers::of(&own, table.count);
    let mut sums = [0; MAX_TASKS];
    numbers.window_sums(&mut sums);
    numbers.count_by_sums(&sums, cores)
}
