// Prints what reading standard input gives, with the place of a refusal and every task: for tests.
#![tactic(auto)]

use tasks::limits::MAX_TEXT_LENGTH;
use tasks::outcome::Outcome;
use tasks::task::Task;
use text::output::Output;

// One byte more than a text may have, so that a longer one is seen to be too long.
const INPUT_ROOM: usize = MAX_TEXT_LENGTH + 1;

// Room for a refusal, the number of tasks, and 32 lines of three numbers of at most 7 digits.
const OUTPUT_ROOM: usize = 1_024;

// READ, or the refusal with its place.
fn put_outcome(output: &mut Output<OUTPUT_ROOM>, outcome: Outcome) {
    match outcome {
        Ok(()) => output.put(b"READ\n"),
        Err(refusal) => {
            output.put(b"REFUSED ");
            output.put_numbers(&[refusal.reason.number() as u64, refusal.place as u64]);
        }
    }
}

// All entries, so that those past the count are seen too.
fn put_tasks(output: &mut Output<OUTPUT_ROOM>, tasks: &[Task]) {
    for task in tasks {
        output.put_numbers(&[task.period as u64, task.budget as u64, task.deadline as u64]);
    }
}

// What reading a text gives: the outcome, the number of tasks, and the tasks.
fn put_reading(output: &mut Output<OUTPUT_ROOM>, text: &[u8]) {
    let answer = reader::read(text);
    let table = answer.table;
    put_outcome(output, answer.outcome);
    output.put_numbers(&[table.count as u64]);
    put_tasks(output, &table.tasks);
}

fn main(rt: HostRuntime) {
    let mut input = [0u8; INPUT_ROOM];
    let mut output = Output::new();
    let n = stdio::read_input(&rt, &mut input);
    put_reading(&mut output, &input[..n]);
    stdio::write_output(&rt, output.text());
}
