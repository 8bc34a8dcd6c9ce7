// What a slot does to one job, in its steps 2 to 4.
ghost use Rattle.std.specs.Prelude.{◌≡◌};
ghost use Rattle.job.specs.Slot.{charged, aged, is_finished, is_late, settled};

use crate::job::Job;

impl Job {
    // Step 2 of a slot: a runner owes one slot less.
    #[tactic(auto, unfolding(crate::specs::Slot::charged, laws::specs::Sums::bit))]
    pub fn charged(self, ran: bool) -> Self
        ensures { result ≡ charged ran self }
    {
        Job {
            budget: self.budget.saturating_sub(u32::from(ran)),
            ..self
        }
    }

    // Step 3 of a slot: one slot less to the deadline and to the next release.
    #[tactic(auto, unfolding(crate::specs::Slot::aged))]
    pub fn aged(self) -> Self
        ensures { result ≡ aged self }
    {
        Job {
            left: self.left.saturating_sub(u32::from(self.open)),
            gap: self.gap.saturating_sub(1),
            ..self
        }
    }

    // Step 4 of a slot: an open job that owes nothing is finished.
    #[tactic(auto, unfolding(crate::specs::Slot::is_finished))]
    pub fn is_finished(self) -> bool
        ensures { result ≡ is_finished self }
    {
        self.open && self.budget == 0
    }

    // Step 4 of a slot: any other with no slot left is late.
    #[tactic(auto, unfolding(crate::specs::Slot::is_late))]
    pub fn is_late(self) -> bool
        ensures { result ≡ is_late self }
    {
        self.open && self.budget != 0 && self.left == 0
    }

    // Step 4 of a slot: a job that is finished or late closes.
    #[tactic(auto, unfolding(crate::specs::Slot::settled))]
    pub fn settled(self) -> Self
        ensures { result ≡ settled self }
    {
        if self.is_finished() || self.is_late() {
            self.closed()
        } else {
            self
        }
    }
}
