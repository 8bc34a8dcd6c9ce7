// Plays many slots of the table on standard input, on half as many cores as tasks, and prints a checksum: for benchmarks.
#![tactic(auto)]

ghost use Rattle.std.specs.Prelude.{◌≤◌};
ghost use Rattle.tasks.specs.Limits.{max_tasks};

use job::job::Job;
use machine::answer::Report;
use machine::machine::Machine;
use tasks::flags::mask;
use tasks::limits::{MAX_TASKS, MAX_TEXT_LENGTH};
use tasks::table::PerTask;
use text::output::Output;

// One byte more than a text may have, so that a longer one is seen to be too long.
const INPUT_ROOM: usize = MAX_TEXT_LENGTH + 1;

// Room for a number of 64 bits and byte 10.
const OUTPUT_ROOM: usize = 21;

// The slots that are played.
const SLOTS: u64 = 1_000_000;

// What the checksum is reduced by: the largest prime of 32 bits.
const MODULUS: u64 = 4_294_967_291;

// The checksum with one more number.
fn folded(sum: u64, number: u64) -> u64 {
    (sum % MODULUS * 31 + number % MODULUS) % MODULUS
}

// The cores of a slot as one number: for each task the sum of the cores up to its own, all of them summed up.
fn cores_number(assigned: PerTask) -> u64 {
    let mut number: u64 = 0;
    let mut running: u64 = 0;
    for core in assigned {
        running += core as u64;
        number += running;
    }
    number
}

// The checksum with one more report: who ran, finished and was late, and the cores.
fn with_report(sum: u64, report: Report) -> u64 {
    let tasks = folded(
        folded(folded(sum, mask(report.ran)), mask(report.finished)),
        mask(report.late),
    );
    folded(tasks, cores_number(report.assigned))
}

// Whether a release of the job's task would be accepted.
fn may_release(job: Job) -> bool {
    !job.open && job.gap == 0
}

// The checksum of the reports of so many slots of a machine of `count` tasks, each with the machine's cores. Before each slot every task whose
// release would be accepted is released with its whole budget.
fn play(mut machine: Machine, count: usize, slots: u64) -> u64
    requires { count ≤ max_tasks }
{
    let table = machine.table;
    let mut sum: u64 = 0;
    for _ in 0..slots {
        for i in 0..count {
            if may_release(machine.jobs[i]) {
                machine = machine.release(i as u32 + 1, table.tasks[i].budget).machine;
            }
        }
        let answer = machine.slot(machine.cores);
        sum = with_report(sum, answer.report);
        machine = answer.machine;
    }
    sum
}

// The checksum of the table of a text: 0 where it is refused.
fn played(text: &[u8]) -> u64 {
    let table = reader::read(text).table;
    let count = table.count;
    if MAX_TASKS < count {
        return 0;
    }
    let started = Machine::start(table, count as u32 / 2);
    play(started.machine, count, SLOTS)
}

fn main(rt: HostRuntime) {
    let mut input = [0u8; INPUT_ROOM];
    let mut output = Output::<OUTPUT_ROOM>::new();
    let n = stdio::read_input(&rt, &mut input);
    output.put_numbers(&[played(&input[..n])]);
    stdio::write_output(&rt, output.text());
}
