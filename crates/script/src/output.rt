// The lines of the output. Each is put in an `Output`, or after the first `used` bytes of a lent array: what puts it there answers how many bytes the array
// then holds.
ghost use Rattle.std.specs.Prelude.{◌≡◌};
ghost use Rattle.text.specs.Output.{PutAt, put};
ghost use Rattle.script.specs.Output.{PutsWithin, PutAtWithin, ListsReport, bad_line, answer_line, refusal_room};

use machine::answer::{Answer, Report};
use machine::call::Call;
use tasks::flags::mask;
use tasks::limits::{MAX_CORES, MAX_TASKS};
use text::output::{Output, put, put_numbers, put_refused};

// Room for a line REFUSED or BAD LINE, in contracts `refusal_room`.
pub const REFUSAL_ROOM: usize = 32;

// Room for the line of an answer of the machine, in contracts `answer_room`: four numbers of ten digits, 16 cores of two, and a byte after each.
pub const ANSWER_ROOM: usize = 4 * (10 + 1) + MAX_CORES as usize * (2 + 1);

// The line for a line of the script that is not what it must be.
pub fn put_bad_line<const N: usize>(output: &mut Output<N>, line: usize)
    ensures { PutsWithin refusal_room output.old (bad_line line) output.new }
{
    output.put(b"BAD LINE ");
    output.put_numbers(&[line as u64]);
}

// The same line in a lent array.
pub fn put_bad_line_at(output: &mut [u8], used: usize, line: usize) -> usize
    ensures { PutAtWithin refusal_room output.old used (bad_line line) output.new result }
{
    let at = put(output, used, b"BAD LINE ");
    put_numbers(output, at, &[line as u64])
}

// The most numbers of a report's line: four, and the core of each task.
const REPORT_NUMBERS: usize = 4 + MAX_TASKS;

// Lists the numbers of a report's line, and answers how many these are: the tasks that ran, finished and were late in a slot, the number of runners, and the
// core of each runner. The array is lent, since an answer of its size would be copied.
fn list_report(numbers: &mut [u64; REPORT_NUMBERS], report: Report) -> usize
    ensures { ListsReport report numbers.new result }
{
    numbers[0] = mask(report.ran);
    numbers[1] = mask(report.finished);
    numbers[2] = mask(report.late);
    numbers[3] = report.runners as u64;
    let mut n: usize = 4;
    for i in 0..MAX_TASKS {
        if report.ran[i] {
            numbers[n] = report.assigned[i] as u64;
            n += 1;
        }
    }
    n
}

// The line of a call's answer.
#[tactic(auto, unfolding(crate::specs::Output::answer_line, crate::specs::Output::outcome_line, crate::specs::Output::accepted_line))]
pub fn put_answer<const N: usize>(output: &mut Output<N>, call: Call, answer: Answer)
    ensures { output.new ≡ put output.old (answer_line call answer) }
{
    match (answer.outcome, call) {
        (Err(refusal), _) => output.put_refused(refusal.reason.number()),
        (Ok(()), Call::Slot(_)) => {
            let mut numbers = [0u64; REPORT_NUMBERS];
            let n = list_report(&mut numbers, answer.report);
            output.put_numbers(&numbers[..n]);
        }
        (Ok(()), _) => output.put(b"DONE\n"),
    }
}

// The same line in a lent array.
#[tactic(auto, unfolding(crate::specs::Output::answer_line, crate::specs::Output::outcome_line, crate::specs::Output::accepted_line))]
pub fn put_answer_at(output: &mut [u8], used: usize, call: Call, answer: Answer) -> usize
    ensures { PutAt output.old used (answer_line call answer) output.new result }
{
    match (answer.outcome, call) {
        (Err(refusal), _) => put_refused(output, used, refusal.reason.number()),
        (Ok(()), Call::Slot(_)) => {
            let mut numbers = [0u64; REPORT_NUMBERS];
            let n = list_report(&mut numbers, answer.report);
            put_numbers(output, used, &numbers[..n])
        }
        (Ok(()), _) => put(output, used, b"DONE\n"),
    }
}
