// Whether a machine that is handed in is sound.
ghost use Rattle.std.specs.Prelude.{◌≤◌, ◌≡◌};
ghost use Rattle.tasks.specs.Limits.{max_tasks};
ghost use Rattle.tasks.specs.Outcome.{is_done};
ghost use Rattle.machine.specs.Offer.{offer_checked};
ghost use Rattle.machine.specs.Sound.{jobs_sound, sound};

use crate::machine::Machine;
use cores::record::cores_sound;
use tasks::check::check;
use tasks::task::Task;

impl Machine {
    // Whether the job of every task is sound.
    fn jobs_sound(self) -> bool
        requires { self.table.count ≤ max_tasks }
        ensures { result ≡ jobs_sound self self.table.count }
    {
        for i in 0..self.table.count {
            if !self.jobs[i].is_sound(self.table.tasks[i]) {
                return false;
            }
        }
        true
    }

    // Whether an offer of the task would be taken.
    #[tactic(auto, unfolding(crate::specs::Offer::offer_checked, judge::specs::SlackJudge::admission_values_of, tasks::specs::Outcome::first_refusal, tasks::specs::Outcome::is_done))]
    fn takes_offer(self, task: Task) -> bool
        ensures { result ≡ is_done (offer_checked self.table self.cores task) }
    {
        self.offer_verdict(task).unwrap_or(false)
    }

    // Whether a start would take its table and its cores, every job is sound, and so are the recorded cores and the held task. A borrow
    // of the machine would copy it at each call: so the recorded cores are copied first, and the held task is met by a `match` and no closure.
    #[tactic(auto, using(crate::proofs::SoundLaws::checked_fits), unfolding(crate::specs::Sound::sound, crate::specs::Offer::held_sound, tasks::specs::Outcome::is_done))]
    pub fn is_sound(self) -> bool
        ensures { result ≡ sound self }
    {
        if check(self.table, self.cores).is_err() {
            return false;
        }
        let recorded = self.assigned;
        self.jobs_sound()
            && cores_sound(&recorded[..self.table.count])
            && match self.held {
                None => true,
                Some(task) => self.takes_offer(task),
            }
    }
}
