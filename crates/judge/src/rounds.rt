// The rounds of the slack test: document 02, change 6.
ghost use Rattle.std.specs.Prelude.{◌-◌, ◌≤◌, ◌≡◌};
ghost use Rattle.tasks.specs.Limits.{max_cores, max_period};
ghost use Rattle.edzl.specs.Slack.{new_slack};
ghost use Rattle.judge.specs.Parts.{own_part};

use crate::numbers::Numbers;
use edzl::{own_part, saturating_sub};
use tasks::limits::MAX_TASKS;
use tasks::table::PerTask;

// "or after 64"
const MAX_ROUNDS: u32 = 64;

// The slack that a sum gives: what the sum lacks, divided by the cores and rounded up, which is 0 where the sum reaches. The sum
// counts the task itself too. The compiler makes no branch of it.
fn slack_of(budget: u32, deadline: u32, sum: u32, cores: u32) -> u32
    requires budget_fits { budget ≤ deadline }
    requires deadline_fits { deadline ≤ max_period }
    requires own_within { own_part budget deadline ≤ sum }
    requires cores_some { 1 ≤ cores }
    requires cores_fit { cores ≤ max_cores }
    ensures { result ≡ new_slack cores (deadline - budget) (sum - own_part budget deadline) }
{
    let spare = deadline - budget;
    let needed = cores * spare + own_part(budget, spare);
    (saturating_sub(needed, sum) + cores - 1) / cores
}

impl<'a> Numbers<'a> {
    ghost use Rattle.std.specs.Prelude.{ℕ, ◌<◌, not, eqb, get_or};
    ghost use Rattle.laws.specs.Sums.{sum_to, bit};
    ghost use Rattle.edzl.specs.Window.{no_slack};
    ghost use Rattle.edzl.specs.Slack.{all_rounds};
    ghost use Rattle.judge.specs.Numbers.{set_of};
    ghost use Rattle.judge.specs.Parts.{own_at, slack_at, SumsWithOwn, LastSumsWithOwn};

    // Gives each task the slack of its sum, and says how many slacks changed.
    fn next_slacks(&self, sums: &PerTask, slacks: &mut PerTask, cores: u32) -> u32
        requires cores_some { 1 ≤ cores }
        requires cores_fit { cores ≤ max_cores }
        requires own_within { (k : ℕ) → k < self.now.count → own_at (set_of self.now) k ≤ get_or sums.now k 0 }
        ensures slacks { (k : ℕ) → k < self.now.count → get_or slacks.new k 0 ≡ slack_at (set_of self.now) cores sums.now k }
        ensures changed { result ≡ sum_to self.now.count (λ k. bit (not (eqb (get_or slacks.old k 0) (get_or slacks.new k 0)))) }
    {
        let mut changed: u32 = 0;
        for k in 0..self.count {
            let slack = slack_of(self.budgets[k], self.deadlines[k], sums[k], cores);
            if slacks[k] != slack {
                changed += 1;
            }
            slacks[k] = slack;
        }
        changed
    }

    // Makes the rounds from the sums of round 1 on and leaves the sums of the last round: how many rounds were made.
    pub(crate) fn last_round(&self, sums: &mut PerTask, cores: u32) -> u32
        requires cores_some { 1 ≤ cores }
        requires cores_fit { cores ≤ max_cores }
        requires first_sums { SumsWithOwn (set_of self.now) no_slack sums.old }
        ensures rounds { result ≡ (all_rounds (set_of self.now) cores).made }
        ensures last_sums { LastSumsWithOwn (set_of self.now) cores sums.new }
    {
        let mut before = [0; MAX_TASKS];
        let mut slacks = before;
        let mut changed = self.next_slacks(sums, &mut slacks, cores);
        for made in 1..MAX_ROUNDS {
            if changed == 0 {
                return made;
            }
            self.next_sums(&before, &slacks, sums);
            before = slacks;
            changed = self.next_slacks(sums, &mut slacks, cores);
        }
        MAX_ROUNDS
    }
}
