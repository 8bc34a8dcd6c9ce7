// Whether a given table and a number of cores can be judged or started.
ghost use Rattle.std.specs.Prelude.{ℕ, ◌+◌, ◌≤◌, ◌<◌, ◌≡◌, List, Ok, Err, cond, eqb, get_or};
ghost use Rattle.tasks.specs.declared.refusals.Reason.TheVariants.{TooManyTasks, TaskOutOfRange};
ghost use Rattle.tasks.specs.declared.task.Task.{Task};
ghost use Rattle.tasks.specs.Limits.{max_tasks};
ghost use Rattle.tasks.specs.Refusals.{refusal};
ghost use Rattle.tasks.specs.Table.{zero_task};
ghost use Rattle.tasks.specs.Numbers.{table_from, numbered_table};
ghost use Rattle.tasks.specs.Check.{first_out_of_range, cores_in_range, checked};

use crate::limits::{MAX_CORES, MAX_TASKS};
use crate::outcome::Outcome;
use crate::refusals::Reason;
use crate::table::{PerTask, Table, TaskNumbers};
use crate::task::Task;

// Whether a number of cores is one of 1 to 16: what number 7 refuses otherwise.
#[tactic(auto, unfolding(crate::specs::Check::cores_in_range))]
pub fn cores_in_range(cores: u32) -> bool
    ensures { result ≡ cores_in_range cores }
{
    1 <= cores && cores <= MAX_CORES
}

// The refusal of a table of more than 32 tasks.
pub fn too_many() -> Outcome
    ensures { result ≡ Err (refusal TooManyTasks (max_tasks + 1)) }
{
    Err(Reason::TooManyTasks.at(MAX_TASKS as u32 + 1))
}

// Carried out, or the refusal of the first of so many tasks that is out of range. The tasks are given by their indexes.
fn check_each<F: Fn(usize) -> Task>(task_at: F, count: usize) -> Outcome
    requires callable { (i : ℕ) → i < max_tasks → F.pre task_at i }
    requires in_table { count ≤ max_tasks }
    ensures { (tasks : List Task) →
        ((i : ℕ) (task : Task) → i < max_tasks → F.post task_at i task → task ≡ get_or tasks i zero_task) →
        let place = first_out_of_range tasks 0 count in
        result ≡ cond (eqb place 0) (Ok tt) (Err (refusal TaskOutOfRange place)) }
{
    for i in 0..count {
        if !task_at(i).in_range() {
            return Err(Reason::TaskOutOfRange.at(i as u32 + 1));
        }
    }
    Ok(())
}

// Carried out, or the refusal of a table of so many tasks, which are given by their indexes, or of this number of cores.
#[tactic(auto, unfolding(crate::specs::Check::checked))]
fn check_tasks<F: Fn(usize) -> Task>(task_at: F, count: usize, cores: u32) -> Outcome
    requires { (i : ℕ) → i < max_tasks → F.pre task_at i }
    ensures { (tasks : List Task) →
        ((i : ℕ) (task : Task) → i < max_tasks → F.post task_at i task → task ≡ get_or tasks i zero_task) →
        result ≡ checked (record { count = count; tasks = tasks }) cores }
{
    if MAX_TASKS < count {
        return too_many();
    }
    if count == 0 {
        return Err(Reason::NoTask.at(0));
    }
    check_each(task_at, count)?;
    if !cores_in_range(cores) {
        return Err(Reason::CoresOutOfRange.at(0));
    }
    Ok(())
}

// Carried out, or the refusal of this table or of this number of cores.
pub fn check(table: Table, cores: u32) -> Outcome
    ensures { result ≡ checked table cores }
{
    check_tasks(|i| table.tasks[i], table.count, cores)
}

// The same of the table of so many tasks whose T, C and D stand in three arrays. Nothing is copied.
pub fn check_arrays(
    periods: &PerTask,
    budgets: &PerTask,
    deadlines: &PerTask,
    count: usize,
    cores: u32,
) -> Outcome
    ensures { result ≡ checked (table_from periods.now budgets.now deadlines.now count) cores }
{
    check_tasks(
        |i| Task {
            period: periods[i],
            budget: budgets[i],
            deadline: deadlines[i],
        },
        count,
        cores,
    )
}

// The same of the table of so many tasks with these numbers, which are lent as one value.
pub fn check_numbers(numbers: &TaskNumbers, count: usize, cores: u32) -> Outcome
    ensures { result ≡ checked (numbered_table numbers.now count) cores }
{
    check_arrays(
        &numbers.periods,
        &numbers.budgets,
        &numbers.deadlines,
        count,
        cores,
    )
}
