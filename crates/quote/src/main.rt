// Prints the quotes of the ranges on standard input: docs/HANDBOOK.md, "Quotes over ranges".
#![tactic(auto)]

use lines::Printed;
use tasks::limits::MAX_TEXT_LENGTH;
use text::output::Output;

mod output;
mod reading;

ghost use Rattle.text.specs.Output.{Holds};
ghost use Rattle.quote.specs.Printed.{printed};

// One byte more than a text may have, so that a longer one is seen to be too long.
const INPUT_ROOM: usize = MAX_TEXT_LENGTH + 1;

// What is printed for a text.
fn quote(text: &[u8]) -> Printed
    ensures { Holds (printed text.now) result }
{
    let mut output = Output::new();
    match reading::read(text) {
        Ok(table) => output::put_quotes(&mut output, table),
        Err(refusal) => output.put_refused(refusal.reason.number()),
    }
    output
}

fn main(rt: HostRuntime) {
    let mut input = [0u8; INPUT_ROOM];
    let n = stdio::read_input(&rt, &mut input);
    let output = quote(&input[..n]);
    stdio::write_output(&rt, output.text());
}
