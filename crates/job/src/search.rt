// The search for the next runner.
ghost use Rattle.std.specs.Prelude.{◌≡◌};
ghost use Rattle.job.specs.Search.{next_runner};
ghost use Rattle.job.specs.Rank.{waits, ranked};

use crate::rank::{NEVER, precedes};

// Whether a task of this rank is open and not picked.
#[tactic(auto, unfolding(crate::specs::Rank::waits))]
fn waits(rank: u64) -> bool
    ensures { result ≡ waits rank }
{
    rank < NEVER
}

// The index of the first open task that no unpicked one precedes, by the ranks of the tasks; none where no task waits. Closed and picked tasks are
// passed over. A rival that precedes the candidate is the next candidate: it precedes all that were tried before. Document 01 names this form, labelled
// loops over candidates and rivals; that over the candidates is no `for`, since it goes on at a rival.
pub fn next_runner(ranks: &[u64]) -> Option<usize>
    ensures { result ≡ next_runner (ranked ranks.now) }
{
    let mut candidate: usize = 0;
    'candidates: while candidate < ranks.len() {
        if !waits(ranks[candidate]) {
            candidate += 1;
            continue 'candidates;
        }
        'rivals: for rival in candidate + 1..ranks.len() {
            if !waits(ranks[rival]) {
                continue 'rivals;
            }
            if precedes(ranks[rival], rival, ranks[candidate], candidate) {
                candidate = rival;
                continue 'candidates;
            }
        }
        return Some(candidate);
    }
    None
}
