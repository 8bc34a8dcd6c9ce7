// The lines of a machine.
ghost use Rattle.tasks.specs.Limits.{max_tasks};
ghost use Rattle.script.specs.Output.{PutsWithin};
ghost use Rattle.probe.specs.Output.{entry_line, entry_lines, held_line, machine_lines, entry_room, entries_room, held_room, machine_room};

use job::job::Job;
use machine::machine::Machine;
use script::output::ANSWER_ROOM;
use tasks::limits::MAX_TASKS;
use tasks::task::Task;
use text::output::Output;

// Room for the line of an entry, in contracts `entry_room`: eight numbers of ten digits, and a byte after each.
const ENTRY_ROOM: usize = 8 * (10 + 1);

// Room for the line of what is held, in contracts `held_room`: the word HELD with its space, three numbers of ten digits, and a byte after each.
const HELD_ROOM: usize = 5 + 3 * (10 + 1);

// Room for the lines of a machine, in contracts `machine_room`: the word MACHINE with its space, a count of at most 20 digits, cores of ten, a byte after
// either, the lines of the entries, and that of what is held.
const MACHINE_ROOM: usize = 8 + (20 + 1) + (10 + 1) + ENTRY_ROOM * MAX_TASKS + HELD_ROOM;

// Room for what is printed, in contracts `room`.
const OUTPUT_ROOM: usize = ANSWER_ROOM + MACHINE_ROOM;

// Where what is printed is put together.
pub type Printed = Output<OUTPUT_ROOM>;

// The eight numbers of an entry.
fn put_entry(output: &mut Printed, task: Task, job: Job, core: u32)
    ensures { PutsWithin entry_room output.old (entry_line task job core) output.new }
{
    output.put_numbers(&[
        task.period as u64,
        task.budget as u64,
        task.deadline as u64,
        job.open as u64,
        job.left as u64,
        job.budget as u64,
        job.gap as u64,
        core as u64,
    ]);
}

// All entries, those past the count too.
fn put_entries(output: &mut Printed, machine: Machine)
    ensures { PutsWithin entries_room output.old (entry_lines machine 0 max_tasks) output.new }
{
    for i in 0..MAX_TASKS {
        put_entry(
            output,
            machine.table.tasks[i],
            machine.jobs[i],
            machine.assigned[i],
        );
    }
}

// What a machine holds.
fn put_held(output: &mut Printed, held: Option<Task>)
    ensures { PutsWithin held_room output.old (held_line held) output.new }
{
    match held {
        Some(task) => {
            let Task {
                period,
                budget,
                deadline,
            } = task;
            output.put(b"HELD ");
            output.put_numbers(&[period as u64, budget as u64, deadline as u64]);
        }
        None => output.put(b"NONE\n"),
    }
}

// All lines of a machine.
pub fn put_machine(output: &mut Printed, machine: Machine)
    ensures { PutsWithin machine_room output.old (machine_lines machine) output.new }
{
    output.put(b"MACHINE ");
    output.put_numbers(&[machine.table.count as u64, machine.cores as u64]);
    put_entries(output, machine);
    put_held(output, machine.held);
}
