// A finish.
ghost use Rattle.std.specs.Prelude.{◌≡◌};
ghost use Rattle.machine.specs.Calls.{finish};

use crate::answer::Answer;
use crate::machine::Machine;
use tasks::refusals::Reason;

impl Machine {
    // The finish of a task's job.
    #[tactic(auto, using(crate::proofs::TaskNumbers::number_some, crate::proofs::TaskNumbers::index_fits), unfolding(crate::specs::Calls::finish, crate::specs::Machine::job_at, job::specs::Job::fresh_job))]
    pub fn finish(self, number: u32) -> Answer
        ensures { result ≡ finish self number }
    {
        if !self.is_sound() {
            return Answer::refused(self, Reason::UnsoundMachine);
        }
        if !self.in_table(number) {
            return Answer::refused(self, Reason::NoSuchTask);
        }
        let i = number as usize - 1;
        let job = self.jobs[i];
        if !job.open {
            return Answer::refused(self, Reason::JobNotOpen);
        }
        Answer::done(self.with_job(i, job.closed()))
    }
}
