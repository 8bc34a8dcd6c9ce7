// A job's rank, and precedence by ranks.
ghost use Rattle.std.specs.Prelude.{◌≡◌};
ghost use Rattle.job.specs.Rank.{alike_rank, rank, rank_precedes};

use crate::job::Job;

// What a slot of left counts in a rank: more than any two budgets of a sound machine differ by, so that left goes before budget.
const SLOT_WEIGHT: u64 = 1_048_576;

// What a budget is taken from, so that the larger one gives the smaller rank: more than any budget.
const BUDGET_END: u64 = 4_294_967_296;

// What a job that is not urgent has more in its rank: more than any urgent one's rank, so that every urgent one goes before it.
const LATER: u64 = 9_007_199_254_740_992;

// The rank of a task that does not wait, because it is closed or picked. No waiting task has it. A number and no Option, so that a search compares one
// number for each task.
pub const NEVER: u64 = 18_014_398_509_481_984;

impl Job {
    // Its place among the jobs alike in urgency: smaller left, then larger budget.
    #[tactic(auto, unfolding(crate::specs::Rank::alike_rank))]
    fn alike_rank(self) -> u64
        ensures { result ≡ alike_rank self }
    {
        SLOT_WEIGHT * self.left as u64 + (BUDGET_END - self.budget as u64)
    }

    // A job's place in precedence as one number: the smaller goes first.
    #[tactic(auto, unfolding(crate::specs::Rank::rank, crate::specs::Rank::alike_rank))]
    pub fn rank(self) -> u64
        ensures { result ≡ rank self }
    {
        if !self.open {
            return NEVER;
        }
        let alike = self.alike_rank();
        if self.is_urgent() {
            alike
        } else {
            LATER + alike
        }
    }
}

// Whether the task of rank x at index i precedes the task of rank y at index j: of equal ranks the lower number goes first.
#[tactic(auto, unfolding(crate::specs::Rank::rank_precedes))]
pub fn precedes(x: u64, i: usize, y: u64, j: usize) -> bool
    ensures { result ≡ rank_precedes x i y j }
{
    x < y || (x == y && i < j)
}
