// Probes one call: makes it on the machine of the input, and prints its answer and the machine after it.
#![tactic(auto)]

use crate::input::Input;
use crate::output::{Printed, put_machine};
use machine::call::Call;
use machine::machine::Machine;
use script::output::{put_answer, put_bad_line};
use text::output::Output;

mod input;
mod output;

ghost use Rattle.text.specs.Output.{Holds};
ghost use Rattle.script.specs.Output.{PutsWithin};
ghost use Rattle.probe.specs.Printed.{shown, printed, room};

// More bytes than a good text has: at most 30 of its first line, 79 of each entry's, 38 of what is held and 39 of the call's, 2,635 in all. What is printed
// for a longer text is what is printed for its first bytes (proofs/Cut.antt).
const INPUT_ROOM: usize = 4_096;

// Makes a call: puts its answer and the machine after it.
fn make(output: &mut Printed, machine: Machine, call: Call)
    ensures { PutsWithin room output.old (shown machine call) output.new }
{
    let answer = machine.step(call);
    put_answer(output, call, answer);
    put_machine(output, answer.machine);
}

// What is printed for a text.
fn probe(text: &[u8]) -> Printed
    ensures { Holds (printed text.now) result }
{
    let mut output = Output::new();
    match input::read(text) {
        Ok(Input { machine, call }) => make(&mut output, machine, call),
        Err(line) => put_bad_line(&mut output, line),
    }
    output
}

fn main(rt: HostRuntime) {
    let mut text = [0u8; INPUT_ROOM];
    let n = stdio::read_input(&rt, &mut text);
    let output = probe(&text[..n]);
    stdio::write_output(&rt, output.text());
}
