// The lines that verdict and sharper print of a table, and what quote shares with them.
#![tactic(auto)]

ghost use Rattle.std.specs.Prelude.{ℕ, min, ◌≡◌, List, ◌++◌};
ghost use Rattle.text.specs.Output.{PutAt, put, Holds};
ghost use Rattle.tasks.specs.Limits.{max_cores};
ghost use Rattle.lines.specs.Printed.{header, line_numbers, verdict_line, lines_up_to, printed};

use judge::slack::{SlackVerdict, judge_by_slack};
use judge::{Verdict, judge};
use tasks::limits::MAX_CORES;
use tasks::table::Table;
use text::output::{Output, put};

// Which test's lines are printed: verdict's or sharper's. An enum and no closure: what is printed is a definition of the test's name (`printed`).
#[derive(Clone, Copy)]
pub enum Test {
    Window,
    Slack,
}

// Room for what is printed, in contracts `room`.
pub const OUTPUT_ROOM: usize = 160;

// Where what is printed is put together.
pub type Printed = Output<OUTPUT_ROOM>;

// What has a line for each number of cores.
pub trait Lines<const N: usize> {
    // The line of m cores.
    ghost line: { Self → (m : ℕ) → List ℕ };

    // Puts the line of a number of cores.
    fn put_line(&self, output: &mut Output<N>, cores: u32)
        ensures { output.new ≡ put output.old (line self.now cores) };
}

// A table of which a test's lines are printed.
#[derive(Clone, Copy)]
struct TestedTable {
    test: Test,
    table: Table,
}

// The largest number of cores that has a line.
pub fn last_cores(count: usize) -> u32
    ensures { result ≡ min max_cores count }
{
    count.min(MAX_CORES as usize) as u32
}

// The line of names and the lines of the numbers of cores.
pub fn put_lines<L: Lines<N>, const N: usize>(
    output: &mut Output<N>,
    header: &[u8],
    lines: &L,
    count: usize,
)
    ensures { output.new ≡ put output.old (header.now ++ lines_up_to (L.line lines.now) (min max_cores count)) }
{
    output.put(header);
    for cores in 1..=last_cores(count) {
        lines.put_line(output, cores);
    }
}

impl Test {
    // The line of names.
    #[tactic(auto, unfolding(crate::specs::Printed::header))]
    fn header(self) -> &'static [u8]
        ensures { result.now ≡ header self }
    {
        match self {
            Test::Window => b"CORES COUNT ADMIT\n",
            Test::Slack => b"CORES ROUNDS ADMIT\n",
        }
    }
}

impl TestedTable {
    // The numbers of a line: the cores, COUNT or the rounds made, and 1 for admitted or 0.
    #[tactic(auto, using(laws::proofs::Booleans::bool_byte_lem), unfolding(crate::specs::Printed::line_numbers))]
    fn line_numbers(&self, cores: u32) -> [u64; 3]
        ensures { result ≡ line_numbers self.now.test self.now.table cores }
    {
        let (number, admits) = match self.test {
            Test::Window => {
                let verdict = judge(self.table, cores);
                (Verdict::count(verdict), Verdict::admits(verdict))
            }
            Test::Slack => {
                let verdict = judge_by_slack(self.table, cores);
                (SlackVerdict::rounds(verdict), SlackVerdict::admits(verdict))
            }
        };
        [cores as u64, number as u64, admits as u64]
    }
}

impl<const N: usize> Lines<N> for TestedTable {
    ghost line = { λ t. verdict_line t.test t.table };

    #[tactic(auto, unfolding(crate::specs::Printed::verdict_line))]
    fn put_line(&self, output: &mut Output<N>, cores: u32) {
        output.put_numbers(&self.line_numbers(cores));
    }
}

// Puts what is printed for a text.
#[tactic(auto, unfolding(crate::specs::Printed::printed, crate::specs::Printed::printed_after))]
pub fn put_printed<const N: usize>(output: &mut Output<N>, text: &[u8], test: Test)
    ensures { output.new ≡ put output.old (printed test text.now) }
{
    let answer = reader::read(text);
    let table = answer.table;
    match answer.outcome {
        Ok(()) => put_lines(
            output,
            test.header(),
            &TestedTable { test, table },
            table.count,
        ),
        Err(refusal) => output.put_refused(refusal.reason.number()),
    }
}

// What is printed for a text.
pub fn printed(text: &[u8], test: Test) -> Printed
    ensures { Holds (printed test text.now) result }
{
    let mut output = Output::new();
    put_printed(&mut output, text, test);
    output
}

// Puts what is printed for a text at the start of a lent array, and answers how many bytes the array then holds.
pub fn put_printed_at(output: &mut [u8], text: &[u8], test: Test) -> usize
    ensures { PutAt output.old 0 (printed test text.now) output.new result }
{
    put(output, 0, printed(text, test).text().unwrap())
}
