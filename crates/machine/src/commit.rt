// A commit.
ghost use Rattle.std.specs.Prelude.{◌<◌, ◌≡◌};
ghost use Rattle.tasks.specs.Limits.{max_tasks};
ghost use Rattle.machine.specs.Calls.{with_joined, commit};

use crate::answer::Answer;
use crate::machine::Machine;
use job::job::fresh_job;
use tasks::refusals::Reason;
use tasks::task::Task;

impl Machine {
    // The machine with the task at the end of its table, closed, with no core; it holds none.
    #[tactic(auto, unfolding(crate::specs::Calls::with_joined))]
    fn with_joined(mut self, task: Task) -> Self
        requires { self.table.count < max_tasks }
        ensures { result ≡ with_joined self task }
    {
        let count = self.table.count;
        self.jobs[count] = fresh_job();
        self.assigned[count] = 0;
        Machine {
            table: self.longer_table(task),
            held: None,
            ..self
        }
    }

    // The held task is added to the table. Its checks were the offer's, and a machine that holds a task which they would refuse is not sound.
    #[tactic(auto, using(crate::proofs::SoundLaws::held_room), unfolding(crate::specs::Calls::commit, crate::specs::Calls::commit_held))]
    pub fn commit(self) -> Answer
        ensures { result ≡ commit self }
    {
        if !self.is_sound() {
            return Answer::refused(self, Reason::UnsoundMachine);
        }
        let Some(task) = self.held else {
            return Answer::refused(self, Reason::NoHeldTask);
        };
        Answer::done(self.with_joined(task))
    }
}
