// One line of a log, judged on a machine.
ghost use Rattle.std.specs.Prelude.{◌≡◌, ℕ, ◌<◌, cond, Some, None};
ghost use Rattle.tasks.specs.Flags.{flags_of};
ghost use Rattle.tasks.specs.Limits.{max_tasks};
ghost use Rattle.machine.specs.declared.call.Call.{Call};
ghost use Rattle.machine.specs.declared.machine.Machine.{Machine};
ghost use Rattle.auditing.specs.Line.{calls_from};
ghost use Rattle.auditing.specs.Parts.{Makes, after_calls, line_judged};

use crate::line::LogLine;
use crate::running::legal_run;
use machine::answer::Answer;
use machine::machine::Machine;
use tasks::flags::flags_of;

// Whether a machine takes a call of each task that a value names, in rising number: it is then the machine after these calls. A task's call is made on the
// machine from the task's index. Most values name none.
fn take_calls<F: Fn(Machine, usize) -> Answer>(machine: &mut Machine, value: u32, call: F) -> bool
    requires callable { (m : Machine) (i : ℕ) → i < max_tasks → F.pre call m i }
    ensures { (made : ℕ → Call) → Makes (F.post call) made → after_calls machine.old (calls_from made 0 (flags_of value)) ≡ cond result (Some machine.new) None }
{
    if value == 0 {
        return true;
    }
    for (i, &named) in flags_of(value).iter().enumerate() {
        if named {
            let answer = call(*machine, i);
            let Ok(()) = answer.outcome else {
                return false;
            };
            *machine = answer.machine;
        }
    }
    true
}

// Whether a machine takes a line: its releases, each of the whole budget, its finishes, and then its running, which has to go by the rules. It is then the
// machine after the line.
pub(crate) fn take_line(machine: &mut Machine, line: LogLine) -> bool
    ensures { line_judged machine.old line ≡ cond result (Some machine.new) None }
{
    let table = machine.table;
    let released = take_calls(
        machine,
        line.released,
        |open, i|
            requires { i < max_tasks }
        { open.release(i as u32 + 1, table.tasks[i].budget) },
    );
    if !released {
        return false;
    }
    let finished = take_calls(
        machine,
        line.finished,
        |open, i|
            requires { i < max_tasks }
        { open.finish(i as u32 + 1) },
    );
    if !finished {
        return false;
    }
    let ran = flags_of(line.ran);
    let answer = machine.slot_with(ran);
    let Ok(()) = answer.outcome else {
        return false;
    };
    if !legal_run(*machine, ran) {
        return false;
    }
    *machine = answer.machine;
    true
}
