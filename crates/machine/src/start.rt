// A start.
ghost use Rattle.std.specs.Prelude.{◌≡◌};
ghost use Rattle.machine.specs.Machine.{zero_machine};
ghost use Rattle.machine.specs.InTime.{Started};

use crate::answer::{Answer, Report};
use crate::machine::Machine;
use job::job::fresh_job;
use tasks::check::check;
use tasks::limits::MAX_TASKS;
use tasks::table::Table;

// A machine of zeros.
#[tactic(auto, unfolding(crate::specs::Machine::zero_machine))]
pub fn zero_machine() -> Machine
    ensures { result ≡ zero_machine }
{
    Machine {
        table: Table::empty(),
        cores: 0,
        jobs: [fresh_job(); MAX_TASKS],
        assigned: [0; MAX_TASKS],
        held: None,
    }
}

impl Machine {
    // A fresh machine on a table, or a machine of zeros and the refusal.
    pub fn start(table: Table, cores: u32) -> Answer
        ensures { Started table cores result }
    {
        if let Err(refusal) = check(table, cores) {
            return Answer {
                machine: zero_machine(),
                outcome: Err(refusal),
                report: Report::none(),
            };
        }
        Answer::done(Machine {
            table,
            cores,
            ..zero_machine()
        })
    }
}
