// A task whose period and budget are known as a least and a most.
ghost use Rattle.std.specs.Prelude.{◌≡◌};
ghost use Rattle.ranges.specs.Ranges.{corner_task};
ghost use Rattle.ranges.specs.Check.{in_order, corners_in_range, task_checked};

use crate::corner::Corner;
use tasks::outcome::Outcome;
use tasks::refusals::Reason;
use tasks::task::Task;

// The numbers from the least to the most, both among them.
#[derive(Clone, Copy)]
pub struct Range {
    pub least: u32,
    pub most: u32,
}

// A task's numbers, in slots: the period and the budget within ranges, and the deadline, which is fixed.
#[derive(Clone, Copy)]
pub struct RangedTask {
    pub period: Range,
    pub budget: Range,
    pub deadline: u32,
}

impl Range {
    // Whether the least is not above the most: what number 16 refuses otherwise.
    #[tactic(auto, unfolding(crate::specs::Check::in_order))]
    pub fn in_order(self) -> bool
        ensures { result ≡ in_order self }
    {
        self.least <= self.most
    }
}

impl RangedTask {
    // The task at a corner of the ranges.
    #[tactic(auto, unfolding(crate::specs::Ranges::corner_task))]
    pub fn at(self, corner: Corner) -> Task
        ensures { result ≡ corner_task corner self }
    {
        match corner {
            Corner::Dearest => Task {
                period: self.period.least,
                budget: self.budget.most,
                deadline: self.deadline,
            },
            Corner::Cheapest => Task {
                period: self.period.most,
                budget: self.budget.least,
                deadline: self.deadline,
            },
        }
    }

    // Whether the task at both corners is in range: what number 5 refuses otherwise.
    #[tactic(auto, unfolding(crate::specs::Check::corners_in_range))]
    fn corners_in_range(self) -> bool
        ensures { result ≡ corners_in_range self }
    {
        self.at(Corner::Dearest).in_range() && self.at(Corner::Cheapest).in_range()
    }

    // Carried out, or the refusal of this task with its place: a least above its most, and just after it a corner out of range.
    #[tactic(auto, unfolding(crate::specs::Check::task_checked))]
    pub fn check(self, place: u32) -> Outcome
        ensures { result ≡ task_checked self place }
    {
        if !self.period.in_order() || !self.budget.in_order() {
            return Err(Reason::LeastAboveMost.at(place));
        }
        if !self.corners_in_range() {
            return Err(Reason::TaskOutOfRange.at(place));
        }
        Ok(())
    }
}
