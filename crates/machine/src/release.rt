// A release.
ghost use Rattle.std.specs.Prelude.{◌≡◌};
ghost use Rattle.machine.specs.Calls.{release};

use crate::answer::Answer;
use crate::machine::Machine;
use job::job::{Job, need_in_range};
use tasks::refusals::Reason;

impl Machine {
    // The release of a task's job, which needs so many slots. A task without a gap is closed: an open one's gap is above 0 where the machine is sound.
    #[tactic(auto, using(crate::proofs::TaskNumbers::number_some, crate::proofs::TaskNumbers::index_fits), unfolding(crate::specs::Calls::release, crate::specs::Machine::task_at, crate::specs::Machine::job_at, tasks::specs::Table::zero_task, job::specs::Job::fresh_job))]
    pub fn release(self, number: u32, need: u32) -> Answer
        ensures { result ≡ release self number need }
    {
        if !self.is_sound() {
            return Answer::refused(self, Reason::UnsoundMachine);
        }
        if !self.in_table(number) {
            return Answer::refused(self, Reason::NoSuchTask);
        }
        let i = number as usize - 1;
        let task = self.table.tasks[i];
        if !need_in_range(task, need) {
            return Answer::refused(self, Reason::NeedOutOfRange);
        }
        let job = self.jobs[i];
        if 0 < job.gap {
            return Answer::refused(self, Reason::ReleasedTooSoon);
        }
        Answer::done(self.with_job(i, Job::released(task, need)))
    }
}
