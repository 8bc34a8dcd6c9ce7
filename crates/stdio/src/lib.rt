// Standard input and standard output, for the programs. What is read, and whether a write succeeds, is the world's: the contracts say only
// what holds whatever it is.
#![tactic(auto)]

ghost use Rattle.std.specs.Prelude.{◌≡◌, false};
ghost use Rattle.std.specs.Option.{IsNone};
ghost use Rattle.io.specs.Counts.{IsPrefixLen};

use std::io::{Input, Print, Read};

// Reads standard input to its end, or until the array is full: how many bytes were put at the array's start. A read that fails ends it too.
pub fn read_input<R: Input>(rt: &R, input: &mut [u8]) -> usize
    ensures { IsPrefixLen result input.new }
{
    let mut reader = rt.reader();
    let mut done = 0;
    // No `for`: a read gives as many bytes as it likes.
    while let Ok(n @ 1..) = reader.read(&mut input[done..]) {
        done += n;
    }
    done
}

// Writes a text to standard output. Where there is none, as where what was put together had no room, nothing is written and the answer is false; it is
// false too where a write fails.
pub fn write_output<P: Print>(rt: &P, text: Option<&[u8]>) -> bool
    ensures { IsNone text.entry → result ≡ false }
{
    let Some(text) = text else {
        return false;
    };
    rt.write_all(text).is_ok()
}
