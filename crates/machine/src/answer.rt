// What a call answers.
ghost use Rattle.std.specs.Prelude.{◌≡◌};
ghost use Rattle.machine.specs.Slot.{no_report};
ghost use Rattle.machine.specs.Calls.{done, refuse};

use crate::machine::Machine;
use tasks::flags::Flags;
use tasks::limits::MAX_TASKS;
use tasks::outcome::Outcome;
use tasks::refusals::Reason;
use tasks::table::PerTask;

// What a slot says of each task, how many ran, and the core of each runner, 0 for every other task. Every other call, and a refused slot, says nothing
// of any task.
#[derive(Clone, Copy)]
pub struct Report {
    pub ran: Flags,
    pub finished: Flags,
    pub late: Flags,
    pub runners: u32,
    pub assigned: PerTask,
}

// The machine after the call, whether the call was carried out, and a slot's report: the struct of machine and outcome that document 01 names, in which a
// refused call too hands back its machine.
#[derive(Clone, Copy)]
pub struct Answer {
    pub machine: Machine,
    pub outcome: Outcome,
    pub report: Report,
}

impl Report {
    // A report that names no task.
    #[tactic(auto, unfolding(crate::specs::Slot::no_report))]
    pub fn none() -> Self
        ensures { result ≡ no_report }
    {
        Report {
            ran: [false; MAX_TASKS],
            finished: [false; MAX_TASKS],
            late: [false; MAX_TASKS],
            runners: 0,
            assigned: [0; MAX_TASKS],
        }
    }
}

impl Answer {
    // A call that was carried out and reports nothing.
    #[tactic(auto, unfolding(crate::specs::Calls::done))]
    pub fn done(machine: Machine) -> Self
        ensures { result ≡ done machine }
    {
        Answer {
            machine,
            outcome: Ok(()),
            report: Report::none(),
        }
    }

    // A call that was refused and left the machine as it was.
    #[tactic(auto, unfolding(crate::specs::Calls::refuse))]
    pub fn refused(machine: Machine, reason: Reason) -> Self
        ensures { result ≡ refuse machine reason }
    {
        Answer {
            machine,
            outcome: Err(reason.at(0)),
            report: Report::none(),
        }
    }
}
