// Whether the slack test admits a table, by which offers and the entry for a host go: document 02, changes 6 and 10.
ghost use Rattle.std.specs.Prelude.{◌≤◌, ◌≡◌};
ghost use Rattle.tasks.specs.Limits.{max_cores};
ghost use Rattle.tasks.specs.Numbers.{table_from, numbered_table};
ghost use Rattle.edzl.specs.Slack.{slack_admits};
ghost use Rattle.judge.specs.SlackJudge.{admission_values_of, admission};

use crate::numbers::{Numbers, numbers_of};
use tasks::check::{check, check_arrays};
use tasks::limits::MAX_TASKS;
use tasks::outcome::Outcome;
use tasks::refusals::Refusal;
use tasks::table::{PerTask, Table, TaskNumbers};

impl<'a> Numbers<'a> {
    ghost use Rattle.judge.specs.Numbers.{set_of};

    // Whether the slack test admits the tasks. What the window test admits needs no rounds.
    fn admits(&self, cores: u32) -> bool
        requires cores_some { 1 ≤ cores }
        requires cores_fit { cores ≤ max_cores }
        ensures { result ≡ slack_admits (set_of self.now) cores }
    {
        let mut sums = [0; MAX_TASKS];
        self.window_sums(&mut sums);
        let urgent = self.count_by_sums(&sums, cores);
        if urgent <= cores {
            return true;
        }
        self.last_round(&mut sums, cores);
        let reaching = self.count_by_sums(&sums, cores);
        reaching <= cores
    }
}

// Whether judging was carried out, or why not.
#[tactic(auto, unfolding(crate::specs::SlackJudge::admission_values_of))]
pub fn outcome(admission: Result<bool, Refusal>) -> Outcome
    ensures { result ≡ (admission_values_of admission).outcome }
{
    match admission {
        Ok(_) => Ok(()),
        Err(why) => Err(why),
    }
}

// Whether a table is admitted on a number of cores, or why that is not judged.
#[tactic(auto, using(tasks::proofs::Checked::passes, crate::proofs::Listed::ranges), unfolding(crate::specs::SlackJudge::admission, crate::specs::SlackJudge::slack_judged, crate::specs::SlackJudge::slack_judged_after, crate::specs::SlackJudge::refused_by_slack, crate::specs::SlackJudge::admission_values_of))]
pub fn admit(table: Table, cores: u32) -> Result<bool, Refusal>
    ensures { admission_values_of result ≡ admission table cores }
{
    check(table, cores)?;
    let numbers = numbers_of(&table);
    Ok(Numbers::of(&numbers, table.count).admits(cores))
}

// The same of the table of so many tasks whose T, C and D stand in three arrays. Nothing is copied.
#[tactic(auto, using(tasks::proofs::Checked::passes, crate::proofs::Listed::ranges), unfolding(crate::specs::SlackJudge::admission, crate::specs::SlackJudge::slack_judged, crate::specs::SlackJudge::slack_judged_after, crate::specs::SlackJudge::refused_by_slack, crate::specs::SlackJudge::admission_values_of))]
pub fn admit_arrays(
    periods: &PerTask,
    budgets: &PerTask,
    deadlines: &PerTask,
    count: usize,
    cores: u32,
) -> Result<bool, Refusal>
    ensures { admission_values_of result ≡ admission (table_from periods.now budgets.now deadlines.now count) cores }
{
    check_arrays(periods, budgets, deadlines, count, cores)?;
    let numbers = Numbers {
        periods,
        budgets,
        deadlines,
        count,
    };
    Ok(numbers.admits(cores))
}

// The same of the table of so many tasks with these numbers, which are lent as one value.
pub fn admit_numbers(numbers: &TaskNumbers, count: usize, cores: u32) -> Result<bool, Refusal>
    ensures { admission_values_of result ≡ admission (numbered_table numbers.now count) cores }
{
    admit_arrays(
        &numbers.periods,
        &numbers.budgets,
        &numbers.deadlines,
        count,
        cores,
    )
}
