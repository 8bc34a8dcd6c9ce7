// The calls of the machine, and one step by a call.
ghost use Rattle.std.specs.Prelude.{◌≡◌};
ghost use Rattle.machine.specs.Calls.{step};

use crate::answer::Answer;
use crate::machine::Machine;
use tasks::task::Task;

// Release and Finish name a task by its number, from 1, and Release also the slots that the job will need; Slot names the number of cores that it has, and
// Offer a task that is not in the table yet.
#[derive(Clone, Copy)]
pub enum Call {
    Release { number: u32, need: u32 },
    Finish(u32),
    Slot(u32),
    Offer(Task),
    Commit,
}

impl Machine {
    // What a call does to the machine, and what it answers.
    #[tactic(auto, unfolding(crate::specs::Calls::step))]
    pub fn step(self, call: Call) -> Answer
        ensures { result ≡ step self call }
    {
        match call {
            Call::Release { number, need } => self.release(number, need),
            Call::Finish(number) => self.finish(number),
            Call::Slot(available) => self.slot(available),
            Call::Offer(task) => self.offer(task),
            Call::Commit => self.commit(),
        }
    }
}
