// The sums of the window test, and of a round from those of the round before, of all tasks at once. Each counts the task
// itself too: the tests allow for that.
ghost use Rattle.std.specs.Prelude.{◌≤◌, ◌≡◌};
ghost use Rattle.tasks.specs.Limits.{max_period};
ghost use Rattle.judge.specs.Listed.{inverse_of};
ghost use Rattle.judge.specs.Parts.{part};

use crate::few::FEW_TASKS;
use crate::numbers::Numbers;
use edzl::{min, saturating_sub};
use tasks::limits::MAX_TASKS;
use tasks::table::PerTask;

// A task as it counts in the sums of others. A window times the inverse of its period, without the lower 32 bits, is the window's quotient
// by the period or one less: so one division spares one for every window.
#[derive(Clone, Copy)]
struct Interfering {
    period: u32,
    budget: u32,
    inverse: u32,
    ghost period_some: { 1 ≤ period },
    ghost period_fits: { period ≤ max_period },
    ghost budget_fits: { budget ≤ period },
    ghost inverse_is: { inverse ≡ inverse_of period },
}

impl Interfering {
    // What the task counts for in the sum of one with this window and this spare. The guess of the whole periods may be one too low:
    // then what is left has one more in it.
    fn part(self, window: u32, spare: u32) -> u32
        requires { window ≤ max_period }
        ensures { result ≡ part self.period self.budget window spare }
    {
        let guess = (window as u64 * self.inverse as u64 >> 32) as u32;
        let left = window - guess * self.period;
        let more = saturating_sub(left, self.period);
        let interference = guess * self.budget + min(self.budget, left) + min(self.budget, more);
        min(interference, spare)
    }
}

impl<'a> Numbers<'a> {
    ghost use Rattle.std.specs.Prelude.{ℕ, ◌+◌, ◌-◌, ◌*◌, ◌<◌, get_or};
    ghost use Rattle.tasks.specs.Limits.{max_tasks};
    ghost use Rattle.laws.specs.Sums.{sum_to};
    ghost use Rattle.edzl.specs.Window.{no_slack};
    ghost use Rattle.judge.specs.Numbers.{set_of};
    ghost use Rattle.judge.specs.Parts.{part_of, part_with, spare_at, SumsWithOwn};

    // Task i, with the inverse of its period.
    fn interfering(&self, i: usize) -> Interfering
        requires { i < self.now.count }
        ensures period { result.period ≡ get_or self.now.periods.now i 0 }
        ensures budget { result.budget ≡ get_or self.now.budgets.now i 0 }
    {
        let period = self.periods[i];
        Interfering {
            period,
            budget: self.budgets[i],
            inverse: 4_294_967_295 / period,
        }
    }

    // Adds to each sum what task i counts for in it. The arrays are taken out of `self` first: fetched through it in each turn, which also writes a sum, the
    // loop takes one task at a time (docs/BENCHMARKS.md, "Verdicts").
    fn add_parts(&self, i: usize, sums: &mut PerTask)
        requires in_table { i < self.now.count }
        requires small { (k : ℕ) → k < self.now.count → get_or sums.old k 0 ≤ max_tasks * max_period }
        ensures { (k : ℕ) → k < self.now.count → get_or sums.new k 0 ≡ get_or sums.old k 0 + part_with (set_of self.now) i 0 k }
    {
        let task = self.interfering(i);
        let (budgets, deadlines) = (self.budgets, self.deadlines);
        for k in 0..self.count {
            let window = deadlines[k];
            let spare = window - budgets[k];
            sums[k] += task.part(window, spare);
        }
    }

    // The sums of the window test, which are those of round 1: over all tasks. They are 0 at first.
    pub(crate) fn window_sums(&self, sums: &mut PerTask)
        requires { (k : ℕ) → k < self.now.count → get_or sums.old k 0 ≡ 0 }
        ensures { SumsWithOwn (set_of self.now) no_slack sums.new }
    {
        if self.count <= FEW_TASKS {
            self.sums_anew(&[0; MAX_TASKS], sums);
            return;
        }
        for i in 0..self.count {
            self.add_parts(i, sums);
        }
    }

    // Puts into each sum what task i counts for with its new slack, in place of that with the slack before. The arrays are taken out of `self` first, as in
    // `add_parts`.
    fn move_parts(&self, i: usize, before: u32, slack: u32, sums: &mut PerTask)
        requires in_table { i < self.now.count }
        requires part_within { (k : ℕ) → k < self.now.count → part_with (set_of self.now) i before k ≤ get_or sums.old k 0 }
        requires small { (k : ℕ) → k < self.now.count → get_or sums.old k 0 ≤ max_tasks * max_period }
        ensures { (k : ℕ) → k < self.now.count →
            get_or sums.new k 0 ≡ get_or sums.old k 0 - part_with (set_of self.now) i before k + part_with (set_of self.now) i slack k }
    {
        let task = self.interfering(i);
        let (budgets, deadlines) = (self.budgets, self.deadlines);
        for k in 0..self.count {
            let deadline = deadlines[k];
            let spare = deadline - budgets[k];
            let old = task.part(saturating_sub(deadline, before), spare);
            let new = task.part(saturating_sub(deadline, slack), spare);
            sums[k] = sums[k] - old + new;
        }
    }

    // The sums of the next round: those with the slacks before become those with the new slacks. Only tasks whose slack
    // changed count for something else.
    pub(crate) fn next_sums(&self, before: &PerTask, slacks: &PerTask, sums: &mut PerTask)
        requires sums_before { (k : ℕ) → k < self.now.count →
            get_or sums.old k 0 ≡ sum_to self.now.count (part_of (set_of self.now) (λ i. get_or before.now i 0) k) }
        requires slacks_fit { (k : ℕ) → k < self.now.count → get_or slacks.now k 0 ≤ spare_at (set_of self.now) k }
        ensures { (k : ℕ) → k < self.now.count →
            get_or sums.new k 0 ≡ sum_to self.now.count (part_of (set_of self.now) (λ i. get_or slacks.now i 0) k) }
    {
        if self.count <= FEW_TASKS {
            self.sums_anew(slacks, sums);
            return;
        }
        for i in 0..self.count {
            if before[i] != slacks[i] {
                self.move_parts(i, before[i], slacks[i], sums);
            }
        }
    }
}
