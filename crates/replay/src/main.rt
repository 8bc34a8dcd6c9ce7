// Replays a script: starts a machine on its table and cores, and prints a line for each of its calls.
#![tactic(auto)]

ghost use Rattle.std.specs.Prelude.{◌≡◌, ◌+◌, ◌*◌, ◌≤◌, length};
ghost use Rattle.text.specs.Lines.{lines, unended};
ghost use Rattle.text.specs.Output.{fresh, Holds};
ghost use Rattle.script.specs.Output.{PutsWithin, refusal_room};
ghost use Rattle.replay.specs.Script.{max_script_length, answer_lines, started, printed_for, printed, call_room, room};

use machine::machine::Machine;
use script::calls::{NUMBERS, call_line};
use script::output::{REFUSAL_ROOM, put_answer, put_bad_line};
use script::word_line::find_word_line;
use tasks::refusals::{Reason, Refusal};
use text::bytes;
use text::number::number_after;
use text::output::Output;

// The most bytes that a script has.
const MAX_SCRIPT_LENGTH: usize = 65_536;

// One more byte than a script may have, so that a longer one is seen to be too long.
const INPUT_ROOM: usize = MAX_SCRIPT_LENGTH + 1;

// Room of the output for each byte of the calls, in contracts `call_room`.
const CALL_ROOM: usize = 16;

// Room for what is printed, in contracts `room`.
const OUTPUT_ROOM: usize = CALL_ROOM * MAX_SCRIPT_LENGTH + REFUSAL_ROOM;

// Where what is printed is put together.
type Printed = Output<OUTPUT_ROOM>;

// Puts the answers to the calls of a text, the first of which is on the line `first` of the script.
fn play(output: &mut Printed, text: &[u8], mut machine: Machine, first: usize)
    requires { first ≤ max_script_length + 3 }
    ensures { PutsWithin (call_room * length text.now + refusal_room) output.old (answer_lines machine first (lines text.now) (unended text.now)) output.new }
{
    let mut rest = text;
    let mut line = first;
    // No `for`: each turn takes a line off the rest, which ends the loop; `line` is what a bad line is told by.
    while !rest.is_empty() {
        let length = bytes::find(rest, b'\n');
        if rest.len() <= length {
            put_bad_line(output, line);
            return;
        }
        let Some(call) = call_line(&rest[..length]) else {
            put_bad_line(output, line);
            return;
        };
        let answer = machine.step(call);
        put_answer(output, call, answer);
        machine = answer.machine;
        rest = &rest[length + 1..];
        line += 1;
    }
}

// The machine that starts on the table of a text and these cores.
#[tactic(auto, unfolding(crate::specs::Script::started, crate::specs::Script::if_done, tasks::specs::Outcome::first_refusal))]
fn start(text: &[u8], cores: u32) -> Result<Machine, Refusal>
    ensures { result ≡ started text.now cores }
{
    let reading = reader::read(text);
    reading.outcome?;
    let started = Machine::start(reading.table, cores);
    started.outcome?;
    Ok(started.machine)
}

// Puts the answers to the calls of a text, or the refusal of the table's text or of the cores.
fn run(output: &mut Printed, text: &[u8], cores: u32, calls: &[u8], first: usize)
    requires { first ≤ max_script_length + 3 }
    ensures { PutsWithin (call_room * length calls.now + refusal_room) output.old (printed_for text.now cores first calls.now) output.new }
{
    match start(text, cores) {
        Ok(machine) => play(output, calls, machine, first),
        Err(refusal) => output.put_refused(refusal.reason.number()),
    }
}

// Puts what is printed for a script.
fn put_replay(output: &mut Printed, script: &[u8])
    ensures { PutsWithin room output.old (printed script.now) output.new }
{
    if MAX_SCRIPT_LENGTH < script.len() {
        output.put_refused(Reason::TextTooLong.number());
        return;
    }
    let length = bytes::find(script, b'\n');
    if script.len() <= length {
        put_bad_line(output, 1);
        return;
    }
    let Some(cores) = number_after(&script[..length], b"CORES ", NUMBERS) else {
        put_bad_line(output, 1);
        return;
    };
    let text = &script[length + 1..];
    match find_word_line(text, b"CALLS") {
        Err(line) => put_bad_line(output, line),
        Ok(found) => run(
            output,
            &text[..found.start],
            cores,
            &text[found.next..],
            found.line,
        ),
    }
}

// Puts what is printed for a script in a new output, which is lent: an answer of its size would be copied.
fn replay(output: &mut Printed, script: &[u8])
    requires { output.old ≡ fresh room }
    ensures { Holds (printed script.now) output.new }
{
    put_replay(output, script);
}

fn main(rt: HostRuntime) {
    let mut script = [0u8; INPUT_ROOM];
    let n = stdio::read_input(&rt, &mut script);
    let mut output = Output::new();
    replay(&mut output, &script[..n]);
    stdio::write_output(&rt, output.text());
}
