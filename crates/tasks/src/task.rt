// One task, and whether its numbers are within the limits.
ghost use Rattle.std.specs.Prelude.{◌≡◌};
ghost use Rattle.tasks.specs.Task.{in_range};

use crate::limits::MAX_PERIOD;

// A task's three whole numbers, in slots: T, C and D of document 01.
#[derive(Clone, Copy, PartialEq, Eq)]
pub struct Task {
    pub period: u32,
    pub budget: u32,
    pub deadline: u32,
}

impl Task {
    // Whether 1 <= C <= D <= T <= 1,000,000: what number 5 refuses otherwise.
    #[tactic(auto, unfolding(crate::specs::Task::in_range))]
    pub fn in_range(self) -> bool
        ensures { result ≡ in_range self }
    {
        1 <= self.budget
            && self.budget <= self.deadline
            && self.deadline <= self.period
            && self.period <= MAX_PERIOD
    }
}
