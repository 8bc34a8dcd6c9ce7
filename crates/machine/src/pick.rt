// The pick of a slot's runners.
ghost use Rattle.std.specs.Prelude.{◌≤◌, ◌≡◌, true, length, take};
ghost use Rattle.tasks.specs.Limits.{max_tasks};
ghost use Rattle.machine.specs.Pick.{open_count, runner_count, pick};
ghost use Rattle.machine.specs.Cores.{runner_order};
ghost use Rattle.machine.specs.Ranks.{ranks};
ghost use Rattle.machine.specs.Sound.{sound};

use crate::machine::Machine;
use job::rank::NEVER;
use job::search::next_runner;
use tasks::flags::Flags;
use tasks::limits::MAX_TASKS;

// The rank of each task, and how many tasks are open.
#[derive(Clone, Copy)]
pub(crate) struct Ranks {
    pub(crate) by_task: [u64; MAX_TASKS],
    pub(crate) open_tasks: u32,
}

impl Machine {
    // The ranks of the tasks while none is picked.
    pub(crate) fn ranks(self) -> Ranks
        requires { self.table.count ≤ max_tasks }
        ensures { result ≡ record { by_task = ranks self (pick self 0); open_tasks = open_count self } }
    {
        let mut by_task = [NEVER; MAX_TASKS];
        let mut open_tasks: u32 = 0;
        for i in 0..self.table.count {
            let job = self.jobs[i];
            by_task[i] = job.rank();
            open_tasks += u32::from(job.open);
        }
        Ranks {
            by_task,
            open_tasks,
        }
    }

    // How many tasks run in a slot with so many cores, of so many that are open.
    #[tactic(auto, unfolding(crate::specs::Pick::runner_count))]
    pub(crate) fn runner_count(self, available: u32, open_tasks: u32) -> u32
        requires { open_tasks ≡ open_count self }
        ensures { result ≡ runner_count self available }
    {
        available.min(open_tasks)
    }

    // The first `wanted` open tasks in precedence, by the tasks' ranks, and their indexes in that order. A task that is picked waits no longer.
    #[tactic(auto, using(crate::proofs::SoundLaws::sound_count))]
    pub(crate) fn pick(
        self,
        mut waiting: [u64; MAX_TASKS],
        wanted: u32,
        order: &mut [usize],
    ) -> Flags
        requires is_sound { sound self ≡ true }
        requires none_picked { waiting ≡ ranks self (pick self 0) }
        requires enough_open { wanted ≤ open_count self }
        requires room { length order.old ≡ max_tasks }
        ensures ran { result ≡ pick self wanted }
        ensures listed { take wanted order.new ≡ runner_order self wanted }
    {
        let mut ran = [false; MAX_TASKS];
        for place in 0..wanted as usize {
            // Fewer are picked than are open, so one waits.
            let next = next_runner(&waiting[..self.table.count]).unwrap();
            ran[next] = true;
            order[place] = next;
            waiting[next] = NEVER;
        }
        ran
    }
}
