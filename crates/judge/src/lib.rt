// The window test of a table: document 01, "The window test". The slack test stands in slack.rt, and the admission by it in admission.rt.
#![tactic(auto)]

use crate::urgent::count_urgent;
use tasks::check::check;
use tasks::outcome::Outcome;
use tasks::refusals::Refusal;
use tasks::table::Table;

pub mod admission;
mod few;
mod numbers;
mod rounds;
pub mod slack;
mod sums;
mod urgent;

ghost use Rattle.std.specs.Prelude.{◌≡◌};
ghost use Rattle.judge.specs.Judge.{values_of, judged};

// COUNT, and whether the table is admitted.
#[derive(Clone, Copy, PartialEq, Eq)]
pub struct Verdict {
    pub count: u32,
    pub admitted: bool,
}

#[tactic(auto, unfolding(crate::specs::Judge::values_of, crate::specs::Judge::refused_values))]
impl Verdict {
    // Whether judging was carried out, or why not.
    pub fn outcome(verdict: Result<Verdict, Refusal>) -> Outcome
        ensures { result ≡ (values_of verdict).outcome }
    {
        match verdict {
            Ok(_) => Ok(()),
            Err(why) => Err(why),
        }
    }

    // COUNT: 0 where judging was refused.
    pub fn count(verdict: Result<Verdict, Refusal>) -> u32
        ensures { result ≡ (values_of verdict).count }
    {
        match verdict {
            Ok(verdict) => verdict.count,
            Err(_) => 0,
        }
    }

    // Whether the table is admitted: not where judging was refused.
    pub fn admits(verdict: Result<Verdict, Refusal>) -> bool
        ensures { result ≡ (values_of verdict).admits }
    {
        match verdict {
            Ok(verdict) => verdict.admitted,
            Err(_) => false,
        }
    }
}

// The verdict on a table and a number of cores, or why there is none.
#[tactic(auto, unfolding(crate::specs::Judge::judged, crate::specs::Judge::judged_after, crate::specs::Judge::values_of, tasks::specs::TaskSet::tasks_of, edzl::specs::Window::admitted))]
pub fn judge(table: Table, cores: u32) -> Result<Verdict, Refusal>
    ensures { values_of result ≡ judged table cores }
{
    check(table, cores)?;
    let count = count_urgent(&table, cores);
    Ok(Verdict {
        count,
        admitted: count <= cores,
    })
}
