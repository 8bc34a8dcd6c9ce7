// What a machine holds, and the checks of an offer.
ghost use Rattle.std.specs.Prelude.{◌<◌, ◌≡◌};
ghost use Rattle.tasks.specs.Limits.{max_tasks};
ghost use Rattle.tasks.specs.Table.{with_task};
ghost use Rattle.judge.specs.SlackJudge.{admission_values_of};
ghost use Rattle.machine.specs.Machine.{holding};
ghost use Rattle.machine.specs.Offer.{offer_verdict};

use crate::machine::Machine;
use judge::admission::admit;
use tasks::limits::MAX_TASKS;
use tasks::refusals::{Reason, Refusal};
use tasks::table::Table;
use tasks::task::Task;

impl Machine {
    // The machine that holds this, in place of what it held.
    #[tactic(auto, unfolding(crate::specs::Machine::holding))]
    pub fn holding(self, held: Option<Task>) -> Self
        ensures { result ≡ holding self held }
    {
        Machine { held, ..self }
    }

    // The table with the task at its end.
    #[tactic(auto, unfolding(tasks::specs::Table::with_task))]
    pub(crate) fn longer_table(self, task: Task) -> Table
        requires { self.table.count < max_tasks }
        ensures { result ≡ with_task self.table task }
    {
        let mut table = self.table;
        table.tasks[table.count] = task;
        table.count += 1;
        table
    }

    // The slack test's verdict on the table with the offered task, or the refusal by 5 or 12. What is held plays no part.
    #[tactic(auto, unfolding(crate::specs::Offer::offer_verdict))]
    pub(crate) fn offer_verdict(self, task: Task) -> Result<bool, Refusal>
        ensures { admission_values_of result ≡ offer_verdict self.table self.cores task }
    {
        if !task.in_range() {
            return Err(Reason::TaskOutOfRange.at(0));
        }
        if MAX_TASKS <= self.table.count {
            return Err(Reason::TableFull.at(0));
        }
        admit(self.longer_table(task), self.cores)
    }
}
