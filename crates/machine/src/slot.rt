// A slot: the pick of its runners, their cores, and what it does to every job.
ghost use Rattle.std.specs.Prelude.{◌≤◌, ◌≡◌, Ok};
ghost use Rattle.tasks.specs.Limits.{max_tasks};
ghost use Rattle.machine.specs.Slot.{ran_count, after_slot, slot_report};
ghost use Rattle.machine.specs.Cores.{with_assigned};
ghost use Rattle.machine.specs.Calls.{slot_cores_in_range, slot};

use crate::answer::{Answer, Report};
use crate::machine::Machine;
use cores::assign::assign;
use tasks::flags::Flags;
use tasks::limits::{MAX_CORES, MAX_TASKS};
use tasks::refusals::Reason;
use tasks::table::PerTask;

impl Machine {
    // Steps 2 to 4 of a slot in which these tasks ran, so many in number, on these cores, which the machine records.
    pub(crate) fn after_running(mut self, ran: Flags, runners: u32, assigned: PerTask) -> Answer
        requires table_fits { self.table.count ≤ max_tasks }
        requires counted { runners ≡ ran_count self ran }
        ensures { result ≡ record { machine = with_assigned (after_slot self ran) assigned; outcome = Ok tt; report = slot_report self ran assigned } }
    {
        let mut finished = [false; MAX_TASKS];
        let mut late = [false; MAX_TASKS];
        for i in 0..self.table.count {
            let passed = self.jobs[i].charged(ran[i]).aged();
            finished[i] = passed.is_finished();
            late[i] = passed.is_late();
            self.jobs[i] = passed.settled();
            self.assigned[i] = assigned[i];
        }
        Answer {
            machine: self,
            outcome: Ok(()),
            report: Report {
                ran,
                finished,
                late,
                runners,
                assigned,
            },
        }
    }

    // Whether a slot may have so many cores: as many as the machine's, or more.
    #[tactic(auto, unfolding(crate::specs::Calls::slot_cores_in_range))]
    fn slot_cores_in_range(self, available: u32) -> bool
        ensures { result ≡ slot_cores_in_range self available }
    {
        self.cores <= available && available <= MAX_CORES
    }

    // One slot with so many cores: the pick of the runners, the core of each, and what it does to every job.
    #[tactic(auto, using(crate::proofs::SoundLaws::sound_count, crate::proofs::RunnersLegal::runners_open, crate::proofs::RunnersLegal::runners_few), unfolding(crate::specs::Calls::slot))]
    pub fn slot(self, available: u32) -> Answer
        ensures { result ≡ slot self available }
    {
        if !self.is_sound() {
            return Answer::refused(self, Reason::UnsoundMachine);
        }
        if !self.slot_cores_in_range(available) {
            return Answer::refused(self, Reason::SlotCoresOutOfRange);
        }
        let ranks = self.ranks();
        let runners = self.runner_count(available, ranks.open_tasks);
        let mut order = [0usize; MAX_TASKS];
        let ran = self.pick(ranks.by_task, runners, &mut order);
        let assigned = assign(self.assigned, &order[..runners as usize], available);
        self.after_running(ran, runners, assigned)
    }
}
