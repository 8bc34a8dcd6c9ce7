// Prints the lines of the window test of the table on standard input: document 01, "The table as text".
#![tactic(auto)]

ghost use Rattle.text.specs.Output.{Holds};
ghost use Rattle.lines.specs.declared.Test.TheVariants.{Window};
ghost use Rattle.lines.specs.Printed.{printed};

use lines::{Printed, Test};
use tasks::limits::MAX_TEXT_LENGTH;

// One byte more than a text may have, so that a longer one is seen to be too long.
const INPUT_ROOM: usize = MAX_TEXT_LENGTH + 1;

// What is printed for a text.
fn verdict(text: &[u8]) -> Printed
    ensures { Holds (printed Window text.now) result }
{
    lines::printed(text, Test::Window)
}

fn main(rt: HostRuntime) {
    let mut input = [0u8; INPUT_ROOM];
    let n = stdio::read_input(&rt, &mut input);
    let output = verdict(&input[..n]);
    stdio::write_output(&rt, output.text());
}
