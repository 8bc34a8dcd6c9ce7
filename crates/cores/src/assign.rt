// Which core each runner of a slot has.
ghost use Rattle.std.specs.Prelude.{suc, min, ◌≡◌, false, get_or, replicate};
ghost use Rattle.tasks.specs.Limits.{max_tasks};
ghost use Rattle.cores.specs.Assign.{kept_core, first_unused, assignment};
ghost use Rattle.cores.specs.Used.{KeptCores};

use tasks::limits::MAX_TASKS;

// A core for each task, 0 for none.
pub type Cores = [u32; MAX_TASKS];

// A flag for 0 and for as many cores as there are tasks: while a task has none, one of these is unused.
const USED_FLAGS: usize = MAX_TASKS + 1;

// The core that a runner keeps, by its recorded one: 0 where it keeps none, as records and reports write no core (document 02, change 4).
#[tactic(auto, unfolding(crate::specs::Assign::kept_core))]
fn kept_core(recorded: u32, available: u32) -> u32
    ensures { result ≡ kept_core recorded available }
{
    if recorded <= available { recorded } else { 0 }
}

// Puts the cores of the runners that keep theirs into an array of no cores, and their flags into one of none.
fn keep(recorded: Cores, runners: &[usize], available: u32, cores: &mut [u32], used: &mut [bool])
    requires no_cores { cores.old ≡ replicate max_tasks 0 }
    requires no_flags { used.old ≡ replicate (suc max_tasks) false }
    ensures { KeptCores recorded available runners.now cores.new used.new }
{
    for n in (0..runners.len()).rev() {
        let i = runners[n];
        if i < MAX_TASKS {
            let core = kept_core(recorded[i], available);
            cores[i] = core;
            if (core as usize) < USED_FLAGS {
                used[core as usize] = true;
            }
        }
    }
}

// The lowest core that is not used, of those that have a flag: 0, no core, where there is none up to the number available.
fn first_unused(used: [bool; USED_FLAGS], available: u32) -> usize
    ensures { result ≡ first_unused (λ core. get_or used core false) 1 (min available max_tasks) }
{
    for core in 1..=MAX_TASKS.min(available as usize) {
        if !used[core] {
            return core;
        }
    }
    0
}

// The core of each runner of a slot, 0 for every other task: every runner keeps its recorded core if it is among those available, and then the
// others, in precedence, take the unused ones in rising number. The runners are named by their indexes, in precedence.
pub fn assign(recorded: Cores, runners: &[usize], available: u32) -> Cores
    ensures { result ≡ assignment recorded available runners.now }
{
    let mut cores = [0u32; MAX_TASKS];
    let mut used = [false; USED_FLAGS];
    keep(recorded, runners, available, &mut cores, &mut used);
    for &i in runners {
        if i < MAX_TASKS && cores[i] == 0 {
            let core = first_unused(used, available);
            cores[i] = core as u32;
            used[core] = true;
        }
    }
    cores
}
