// A slot whose runners are given.
ghost use Rattle.std.specs.Prelude.{◌≡◌, ◌≤◌};
ghost use Rattle.tasks.specs.Limits.{max_tasks};
ghost use Rattle.machine.specs.Slot.{ran_count};
ghost use Rattle.machine.specs.Calls.{slot_with};

use crate::answer::Answer;
use crate::machine::Machine;
use tasks::flags::Flags;
use tasks::limits::MAX_TASKS;
use tasks::refusals::Reason;

impl Machine {
    // How many of the table's tasks ran.
    fn number_that_ran(self, ran: Flags) -> u32
        requires { self.table.count ≤ max_tasks }
        ensures { result ≡ ran_count self ran }
    {
        let mut number: u32 = 0;
        for i in 0..self.table.count {
            number += u32::from(ran[i]);
        }
        number
    }

    // Steps 2 to 4 of a slot in which these tasks ran, whoever chose them. It records no core.
    #[tactic(auto, using(crate::proofs::SoundLaws::sound_count), unfolding(crate::specs::Calls::slot_with))]
    pub fn slot_with(self, ran: Flags) -> Answer
        ensures { result ≡ slot_with self ran }
    {
        if !self.is_sound() {
            return Answer::refused(self, Reason::UnsoundMachine);
        }
        let runners = self.number_that_ran(ran);
        self.after_running(ran, runners, [0; MAX_TASKS])
    }
}
