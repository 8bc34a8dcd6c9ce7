// The slack test of a table: document 02, change 6.
ghost use Rattle.std.specs.Prelude.{◌≡◌, Ok};
ghost use Rattle.tasks.specs.Check.{checked};
ghost use Rattle.tasks.specs.TaskSet.{tasks_of};
ghost use Rattle.edzl.specs.Slack.{all_rounds, slack_admits};
ghost use Rattle.judge.specs.SlackJudge.{slack_values_of, slack_judged};

use crate::numbers::{Numbers, numbers_of};
use tasks::check::check;
use tasks::limits::MAX_TASKS;
use tasks::outcome::Outcome;
use tasks::refusals::Refusal;
use tasks::table::Table;

// The rounds made, and whether the table is admitted.
#[derive(Clone, Copy, PartialEq, Eq)]
pub struct SlackVerdict {
    pub rounds: u32,
    pub admitted: bool,
}

#[tactic(auto, unfolding(crate::specs::SlackJudge::slack_values_of, crate::specs::SlackJudge::refused_by_slack))]
impl SlackVerdict {
    // Whether the test was carried out, or why not.
    pub fn outcome(verdict: Result<SlackVerdict, Refusal>) -> Outcome
        ensures { result ≡ (slack_values_of verdict).outcome }
    {
        match verdict {
            Ok(_) => Ok(()),
            Err(why) => Err(why),
        }
    }

    // The rounds made: 0 where the test was refused.
    pub fn rounds(verdict: Result<SlackVerdict, Refusal>) -> u32
        ensures { result ≡ (slack_values_of verdict).rounds }
    {
        match verdict {
            Ok(verdict) => verdict.rounds,
            Err(_) => 0,
        }
    }

    // Whether the table is admitted: not where the test was refused.
    pub fn admits(verdict: Result<SlackVerdict, Refusal>) -> bool
        ensures { result ≡ (slack_values_of verdict).admits }
    {
        match verdict {
            Ok(verdict) => verdict.admitted,
            Err(_) => false,
        }
    }
}

// The rounds of a table, and whether at most `cores` sums of the last one reach.
#[tactic(auto, using(tasks::proofs::Checked::passes, crate::proofs::Listed::ranges))]
fn slack_of_table(table: &Table, cores: u32) -> SlackVerdict
    requires { checked table.now cores ≡ Ok tt }
    ensures rounds { result.rounds ≡ (all_rounds (tasks_of table.now) cores).made }
    ensures admitted { result.admitted ≡ slack_admits (tasks_of table.now) cores }
{
    let own = numbers_of(table);
    let numbers = Numbers::of(&own, table.count);
    let mut sums = [0; MAX_TASKS];
    numbers.window_sums(&mut sums);
    let rounds = numbers.last_round(&mut sums, cores);
    let reaching = numbers.count_by_sums(&sums, cores);
    SlackVerdict {
        rounds,
        admitted: reaching <= cores,
    }
}

// The verdict of the slack test on a table and a number of cores, or why there is none.
#[tactic(auto, unfolding(crate::specs::SlackJudge::slack_judged, crate::specs::SlackJudge::slack_judged_after, crate::specs::SlackJudge::slack_values_of, tasks::specs::TaskSet::tasks_of))]
pub fn judge_by_slack(table: Table, cores: u32) -> Result<SlackVerdict, Refusal>
    ensures { slack_values_of result ≡ slack_judged table cores }
{
    check(table, cores)?;
    Ok(slack_of_table(&table, cores))
}
