// Whether the tasks that ran in a slot could be chosen: document 02, change 11.
ghost use Rattle.std.specs.Prelude.{◌≤◌, ◌≡◌, true};
ghost use Rattle.machine.specs.Sound.{sound};
ghost use Rattle.auditing.specs.Line.{legal_run};
ghost use Rattle.auditing.specs.Turn.{turn, none_past, turns_to, in_order};

use job::job::Job;
use machine::machine::Machine;
use tasks::flags::Flags;
use tasks::limits::MAX_TASKS;

// What a job that is not urgent has more in its turn: more than any left.
const LATER: u64 = 4_294_967_296;

// The turn of a closed job: no open one has it. A number and no Option, so that the last and the first turn are a `max` and a `min`.
const NEVER: u64 = 8_589_934_592;

// A job's turn as one number: of two open jobs the one with the smaller beats the other.
#[tactic(auto, unfolding(crate::specs::Turn::turn))]
fn turn(job: Job) -> u64
    ensures { result ≡ turn job }
{
    if !job.open {
        return NEVER;
    }
    if job.is_urgent() {
        return job.left as u64;
    }
    LATER + job.left as u64
}

// Whether no flag from the count on is set.
#[tactic(auto, unfolding(crate::specs::Turn::none_from, crate::specs::Turn::none_past))]
fn none_past(ran: Flags, count: usize) -> bool
    ensures { result ≡ none_past ran count }
{
    for i in count..MAX_TASKS {
        if ran[i] {
            return false;
        }
    }
    true
}

// What a table's tasks show: how many are open, how many ran, the last turn of a runner, 0 where none ran, and the first of an idle task, NEVER where none is
// idle.
#[derive(Clone, Copy)]
struct Turns {
    open_tasks: u32,
    runners: u32,
    last: u64,
    first: u64,
}

impl Turns {
    // Whether as many ran as there are cores or open tasks, no closed one, and none after the first turn of an idle task.
    #[tactic(auto, unfolding(crate::specs::Turn::in_order))]
    fn in_order(self, cores: u32) -> bool
        ensures { result ≡ in_order self cores }
    {
        let wanted = cores.min(self.open_tasks);
        self.runners == wanted && self.last != NEVER && self.last <= self.first
    }
}

// What the tasks of a machine show where these ran.
#[tactic(auto, using(crate::proofs::TurnsSeen::table_fits))]
fn turns_of(machine: Machine, ran: Flags) -> Turns
    requires { sound machine ≡ true }
    ensures { result ≡ turns_to machine ran machine.table.count }
{
    let mut turns = Turns {
        open_tasks: 0,
        runners: 0,
        last: 0,
        first: NEVER,
    };
    for i in 0..machine.table.count {
        let turn = turn(machine.jobs[i]);
        if turn < NEVER {
            turns.open_tasks += 1;
        }
        if ran[i] {
            turns.runners += 1;
            turns.last = turns.last.max(turn);
        } else {
            turns.first = turns.first.min(turn);
        }
    }
    turns
}

// Whether these tasks are a choice that the rules allow: as many as there are cores or open tasks, all open, and none beaten by an idle one. That is so where
// the last turn of a runner is not after the first of an idle task.
#[tactic(auto, using(crate::proofs::AllowedByTurns::legal_by_turns))]
pub(crate) fn legal_run(machine: Machine, ran: Flags) -> bool
    requires { sound machine ≡ true }
    ensures { result ≡ legal_run machine ran }
{
    turns_of(machine, ran).in_order(machine.cores) && none_past(ran, machine.table.count)
}
