// Plays case j of document 01 for six slots, then case k for five, and prints a line for each slot.
#![tactic(auto)]

ghost use Rattle.std.specs.Prelude.{◌≤◌, ◌≡◌, List, ◌++◌, replicate};
ghost use Rattle.text.specs.Output.{put, Holds};
ghost use Rattle.tasks.specs.Limits.{max_tasks};
ghost use Rattle.machine.specs.Play.{play as log};
ghost use Rattle.tasks.specs.Written.{task};
ghost use Rattle.machine.specs.declared.call.Call.{Call};
ghost use Rattle.machine.specs.declared.call.Call.TheVariants.{Slot};
ghost use Rattle.session.specs.Printed.{slot_line, slot_lines_from, releases, case_j, case_k, printed};

use machine::answer::Report;
use machine::machine::Machine;
use tasks::flags::mask;
use tasks::table::Table;
use tasks::task::Task;
use text::output::Output;

// The cores of the machine of each case, and of its slots.
const CASE_J_CORES: u32 = 2;

const CASE_K_CORES: u32 = 1;

// Eleven lines of eight bytes, in contracts `room`.
const OUTPUT_ROOM: usize = 88;

// Where what is printed is put together.
type Printed = Output<OUTPUT_ROOM>;

// Puts a slot's number and the tasks that ran, finished and were late.
#[tactic(auto, unfolding(crate::specs::Printed::slot_line))]
fn put_slot(output: &mut Printed, number: u64, report: Report)
    ensures { output.new ≡ put output.old (slot_line number report) }
{
    let Report {
        ran,
        finished,
        late,
        ..
    } = report;
    output.put_numbers(&[number, mask(ran), mask(finished), mask(late)]);
}

// Puts a line for each of the next slots of a machine, all of which have so many cores.
fn play(output: &mut Printed, mut machine: Machine, cores: u32, slots: u64)
    ensures { output.new ≡ put output.old (slot_lines_from 1 (log machine (replicate slots (Slot cores)))) }
{
    for i in 0..slots {
        let answer = machine.slot(cores);
        put_slot(output, i + 1, answer.report);
        machine = answer.machine;
    }
}

// The task of three numbers.
#[tactic(auto, unfolding(tasks::specs::Written::task))]
fn task(period: u32, budget: u32, deadline: u32) -> Task
    ensures { result ≡ task period budget deadline }
{
    Task {
        period,
        budget,
        deadline,
    }
}

// The machine after the releases of the first `count` tasks of a table with their whole budgets, which print nothing.
fn released(mut machine: Machine, table: Table, count: u32) -> Machine
    requires { count ≤ max_tasks }
    ensures { (calls : List Call) → slot_lines_from 1 (log machine (releases table count ++ calls)) ≡ slot_lines_from 1 (log result calls) }
{
    for i in 0..count {
        let task = table.tasks[i as usize];
        machine = machine.release(i + 1, task.budget).machine;
    }
    machine
}

// Tasks 6, 2, 3; 6, 2, 3; 6, 5, 6 on 2 cores.
fn case_j() -> Machine
    ensures { slot_lines_from 1 case_j ≡ slot_lines_from 1 (log result (replicate 6 (Slot 2))) }
{
    let mut table = Table::empty();
    table.tasks[0] = task(6, 2, 3);
    table.tasks[1] = task(6, 2, 3);
    table.tasks[2] = task(6, 5, 6);
    table.count = 3;
    let started = Machine::start(table, CASE_J_CORES);
    released(started.machine, table, 3)
}

// Two tasks 5, 5, 5 on 1 core.
fn case_k() -> Machine
    ensures { slot_lines_from 1 case_k ≡ slot_lines_from 1 (log result (replicate 5 (Slot 1))) }
{
    let mut table = Table::empty();
    table.tasks[0] = task(5, 5, 5);
    table.tasks[1] = task(5, 5, 5);
    table.count = 2;
    let started = Machine::start(table, CASE_K_CORES);
    released(started.machine, table, 2)
}

// What is printed.
fn sessions() -> Printed
    ensures { Holds printed result }
{
    let mut output = Output::new();
    play(&mut output, case_j(), CASE_J_CORES, 6);
    play(&mut output, case_k(), CASE_K_CORES, 5);
    output
}

fn main(rt: HostRuntime) {
    let output = sessions();
    stdio::write_output(&rt, output.text());
}
