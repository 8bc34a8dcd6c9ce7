// Audits the log of another dispatcher on standard input: prints whether it is accepted, its first offending line, or a refusal.
#![tactic(auto)]

use crate::opening::{Opening, feed, is_decided, open};
use auditing::auditor::{Audit, LogRefusal};
use script::output::put_bad_line;
use text::output::Output;

mod opening;

ghost use Rattle.text.specs.Output.{Holds};
ghost use Rattle.script.specs.Output.{PutsWithin};
ghost use Rattle.auditing.specs.Audit.{audit_values_of};
ghost use Rattle.audit.specs.Printed.{audit_line};
ghost use Rattle.audit.specs.Opening.{opening_line, printed_room};

// Bytes of the input that are read at a time.
const PART_ROOM: usize = 65_536;

// Room for what is printed, in contracts `printed_room`.
const PRINTED_ROOM: usize = 40;

// The most parts that are read.
const MAX_PARTS: u64 = u64::MAX;

// What the program prints.
type Printed = Output<PRINTED_ROOM>;

// Puts the line of an audit.
fn put_audit(output: &mut Printed, audit: Result<Audit, LogRefusal>)
    ensures { PutsWithin printed_room output.old (audit_line (audit_values_of audit)) output.new }
{
    match audit {
        Ok(Audit::Accepted) => output.put(b"ACCEPTED\n"),
        Ok(Audit::Offends(line)) => {
            output.put(b"OFFENDS ");
            output.put_numbers(&[line]);
        }
        Err(refusal) => {
            output.put(b"REFUSED ");
            output.put_numbers(&[refusal.reason.number() as u64, refusal.place]);
        }
    }
}

// What is printed for an input that ends here.
fn printed_line(opening: Opening) -> Printed
    ensures { Holds (opening_line opening) result }
{
    let mut output = Output::new();
    match opening {
        Ok(auditor) => put_audit(&mut output, auditor.conclude()),
        Err(line) => put_bad_line(&mut output, line),
    }
    output
}

// Reads the input part by part, as long as it is not decided, and writes what is printed for it.
fn main(rt: HostRuntime) {
    let mut input = [0u8; PART_ROOM];
    let mut n = stdio::read_input(&rt, &mut input);
    let mut opening = open(&input[..n]);
    for _ in 0..MAX_PARTS {
        if n < PART_ROOM || is_decided(opening) {
            break;
        }
        n = stdio::read_input(&rt, &mut input);
        opening = feed(opening, &input[..n]);
    }
    let output = printed_line(opening);
    stdio::write_output(&rt, output.text());
}
