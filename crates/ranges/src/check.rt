// Whether ranges and a number of cores can be quoted.
ghost use Rattle.std.specs.Prelude.{◌≤◌, ◌≡◌};
ghost use Rattle.tasks.specs.Limits.{max_tasks};
ghost use Rattle.ranges.specs.Check.{tasks_checked, ranges_checked};

use crate::table::RangedTable;
use tasks::check::{cores_in_range, too_many};
use tasks::limits::MAX_TASKS;
use tasks::outcome::Outcome;
use tasks::refusals::Reason;

// Carried out, or the refusal of the first task that is refused.
fn check_tasks(table: &RangedTable) -> Outcome
    requires { table.now.count ≤ max_tasks }
    ensures { result ≡ tasks_checked table.now.tasks 0 table.now.count }
{
    for i in 0..table.count {
        table.tasks[i].check(i as u32 + 1)?;
    }
    Ok(())
}

// Carried out, or the refusal of these ranges or of this number of cores. Not one function with the check of a table in tasks: the closure that it would take,
// from another crate, would need a `requires` there.
#[tactic(auto, unfolding(crate::specs::Check::ranges_checked, crate::specs::Check::cores_checked, tasks::specs::Outcome::first_refusal))]
pub fn check_ranges(table: RangedTable, cores: u32) -> Outcome
    ensures { result ≡ ranges_checked table cores }
{
    if MAX_TASKS < table.count {
        return too_many();
    }
    if table.count == 0 {
        return Err(Reason::NoTask.at(0));
    }
    check_tasks(&table)?;
    if !cores_in_range(cores) {
        return Err(Reason::CoresOutOfRange.at(0));
    }
    Ok(())
}
