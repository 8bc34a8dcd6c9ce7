// What the lines of the input say. A text starts here with the line that is read; a length is that of a line with its byte 10.
ghost use Rattle.std.specs.Prelude.{◌<◌, ◌≡◌, cond, eqb, leb, MatchOption};
ghost use Rattle.tasks.specs.Limits.{max_tasks};
ghost use Rattle.probe.specs.Input.{NotEnded, FirstLineIs, first_line, zero_entries, entry_from, with_entry, held_from, last_line};
ghost use Rattle.probe.specs.Printed.{printed_input, printed_held, printed_from, printed};

use job::job::Job;
use machine::call::Call;
use machine::machine::Machine;
use machine::start::zero_machine;
use script::calls::{NUMBERS, call_line};
use script::task::task_fields;
use tasks::limits::MAX_TASKS;
use tasks::table::Table;
use tasks::task::Task;
use text::bytes;
use text::fields::fill_from_line;

// The number of the line of the count and the cores, which is the first.
const MACHINE_NUMBER: usize = 1;

// The number of the line of what the machine holds: one for each entry stands between the two.
const HELD_NUMBER: usize = MACHINE_NUMBER + MAX_TASKS + 1;

// The number of the call's line, which is the last.
const CALL_NUMBER: usize = HELD_NUMBER + 1;

// The line of the count and the cores.
#[derive(Clone, Copy)]
struct FirstLine {
    count: u32,
    cores: u32,
    length: usize,
}

// The line of an entry.
#[derive(Clone, Copy)]
struct EntryLine {
    task: Task,
    job: Job,
    core: u32,
    length: usize,
}

// The line of what the machine holds.
#[derive(Clone, Copy)]
struct HeldLine {
    held: Option<Task>,
    length: usize,
}

// The machine of a text, and the call on it.
#[derive(Clone, Copy)]
pub struct Input {
    pub machine: Machine,
    pub call: Call,
}

// The first line of a text, without its byte 10, if it is ended.
fn ended_line(text: &[u8]) -> Option<&[u8]>
    ensures { MatchOption result (NotEnded text.now) (λ line. FirstLineIs text.now line.now) }
{
    let length = bytes::find(text, b'\n');
    if text.len() <= length {
        return None;
    }
    Some(&text[..length])
}

// The count and the cores.
#[tactic(auto, using(text::proofs::WordLaws::not_longer))]
fn first_line(text: &[u8]) -> Option<FirstLine>
    ensures { result ≡ first_line text.now }
{
    let line = ended_line(text)?;
    let word = b"MACHINE ";
    if !bytes::begins_with(line, word) {
        return None;
    }
    let mut numbers = [0u32; 2];
    if !fill_from_line(&line[word.len()..], &mut numbers, NUMBERS) {
        return None;
    }
    let [count, cores] = numbers;
    Some(FirstLine {
        count,
        cores,
        length: line.len() + 1,
    })
}

// A machine before its entries are read.
#[tactic(auto, unfolding(crate::specs::Input::zero_entries, machine::specs::Machine::zero_machine, tasks::specs::Table::empty_table))]
fn zero_entries(count: u32, cores: u32) -> Machine
    ensures { result ≡ zero_entries count cores }
{
    let table = Table {
        count: count as usize,
        ..Table::empty()
    };
    Machine {
        table,
        cores,
        ..zero_machine()
    }
}

// The flag of a number that is 0 or 1.
fn flag(number: u32) -> Option<bool>
    ensures { result ≡ cond (leb number 1) (Some (eqb number 1)) None }
{
    match number {
        0 => Some(false),
        1 => Some(true),
        _ => None,
    }
}

// A task, its job and its recorded core.
fn entry_line(text: &[u8]) -> Option<EntryLine>
    ensures { result ≡ entry_from text.now }
{
    let line = ended_line(text)?;
    let mut numbers = [0u32; 8];
    if !fill_from_line(line, &mut numbers, NUMBERS) {
        return None;
    }
    let [period, budget, deadline, open, left, owed, gap, core] = numbers;
    let open = flag(open)?;
    Some(EntryLine {
        task: Task {
            period,
            budget,
            deadline,
        },
        job: Job {
            open,
            left,
            budget: owed,
            gap,
        },
        core,
        length: line.len() + 1,
    })
}

// The machine with the task, job and core of a line at an index.
#[tactic(auto, unfolding(crate::specs::Input::with_entry))]
fn with_entry(mut machine: Machine, i: usize, entry: EntryLine) -> Machine
    requires { i < max_tasks }
    ensures { result ≡ with_entry machine i entry.task entry.job entry.core }
{
    machine.table.tasks[i] = entry.task;
    machine.jobs[i] = entry.job;
    machine.assigned[i] = entry.core;
    machine
}

// What the machine holds.
#[tactic(auto, using(text::proofs::WordLaws::not_longer))]
fn held_line(text: &[u8]) -> Option<HeldLine>
    ensures { result ≡ held_from text.now }
{
    let line = ended_line(text)?;
    let length = line.len() + 1;
    if bytes::same(line, b"NONE") {
        return Some(HeldLine { held: None, length });
    }
    let word = b"HELD ";
    if !bytes::begins_with(line, word) {
        return None;
    }
    let task = task_fields(&line[word.len()..])?;
    Some(HeldLine {
        held: Some(task),
        length,
    })
}

// The call of the last line, which nothing follows, or the number of the line that is bad.
fn last_line(text: &[u8]) -> Result<Call, usize>
    ensures { result ≡ last_line text.now }
{
    let line = ended_line(text).ok_or(CALL_NUMBER)?;
    let call = call_line(line).ok_or(CALL_NUMBER)?;
    if line.len() + 1 < text.len() {
        return Err(CALL_NUMBER + 1);
    }
    Ok(call)
}

// Reads the lines after the entries: what the machine holds, and the call.
fn read_held(text: &[u8], machine: Machine) -> Result<Input, usize>
    ensures { printed_held machine text.now ≡ printed_input result }
{
    let line = held_line(text).ok_or(HELD_NUMBER)?;
    let call = last_line(&text[line.length..])?;
    Ok(Input {
        machine: machine.holding(line.held),
        call,
    })
}

// Reads the lines after the first: the entries of the machine, what it holds, and the call.
fn read_entries(text: &[u8], mut machine: Machine) -> Result<Input, usize>
    ensures { printed_from machine 0 max_tasks text.now ≡ printed_input result }
{
    let mut rest = text;
    for i in 0..MAX_TASKS {
        let entry = entry_line(rest).ok_or(i + 2)?;
        machine = with_entry(machine, i, entry);
        rest = &rest[entry.length..];
    }
    read_held(rest, machine)
}

// Reads a text: the machine and the call, or the number of the first bad line.
pub fn read(text: &[u8]) -> Result<Input, usize>
    ensures { printed text.now ≡ printed_input result }
{
    let first = first_line(text).ok_or(MACHINE_NUMBER)?;
    read_entries(
        &text[first.length..],
        zero_entries(first.count, first.cores),
    )
}
