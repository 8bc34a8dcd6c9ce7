// The sums of few tasks, added up anew in each round with a division for each part: where they are so few, that is faster than sums.rt.
ghost use Rattle.std.specs.Prelude.{◌≤◌, ◌<◌, ◌≡◌};
ghost use Rattle.tasks.specs.Limits.{max_period};
ghost use Rattle.judge.specs.Parts.{part};

use crate::numbers::Numbers;
use edzl::{min, own_part, saturating_sub};
use tasks::table::PerTask;

// Up to so many tasks are few.
pub(crate) const FEW_TASKS: usize = 3;

// What a task counts for in the sum of one with this window and this spare.
#[tactic(auto, unfolding(edzl::specs::Window::interference))]
fn divided_part(period: u32, budget: u32, window: u32, spare: u32) -> u32
    requires period_some { 1 ≤ period }
    requires budget_fits { budget ≤ period }
    requires window_fits { window ≤ max_period }
    ensures { result ≡ part period budget window spare }
{
    let whole = window / period;
    let left = window - whole * period;
    min(whole * budget + min(budget, left), spare)
}

impl<'a> Numbers<'a> {
    ghost use Rattle.std.specs.Prelude.{◌+◌, get_or};
    ghost use Rattle.edzl.specs.Window.{window_sum};
    ghost use Rattle.judge.specs.Numbers.{set_of};
    ghost use Rattle.judge.specs.Parts.{own_at, SumsWithOwn};

    // The sum of task k, where each task has its slack. It counts the task itself too.
    fn sum_of(&self, slacks: &PerTask, k: usize) -> u32
        requires { k < self.now.count }
        ensures { result ≡ window_sum (set_of self.now) (λ i. get_or slacks.now i 0) k + own_at (set_of self.now) k }
    {
        let deadline = self.deadlines[k];
        let spare = deadline - self.budgets[k];
        let mut sum = own_part(self.budgets[k], spare);
        for i in 0..self.count {
            if i != k {
                let window = saturating_sub(deadline, slacks[i]);
                sum += divided_part(self.periods[i], self.budgets[i], window, spare);
            }
        }
        sum
    }

    // The sums of all tasks, where each has its slack.
    pub(crate) fn sums_anew(&self, slacks: &PerTask, sums: &mut PerTask)
        ensures { SumsWithOwn (set_of self.now) (λ i. get_or slacks.now i 0) sums.new }
    {
        for k in 0..self.count {
            sums[k] = self.sum_of(slacks, k);
        }
    }
}
