// The lines of quotes.
ghost use Rattle.std.specs.Prelude.{min, ◌≡◌, ◌++◌};
ghost use Rattle.text.specs.Output.{put};
ghost use Rattle.tasks.specs.Limits.{max_cores};
ghost use Rattle.lines.specs.Printed.{lines_up_to};
ghost use Rattle.ranges.specs.Quote.{quote_values_of};
ghost use Rattle.quote.specs.Printed.{header, answer_word, quote_line};

use lines::{Lines, Printed};
use ranges::table::RangedTable;
use ranges::{Quote, judge_ranges};
use tasks::refusals::Refusal;
use text::output::Output;

// The word of an answer and its byte 10. A refused quote says of no table that it is admitted; of ranges that were read none comes (proofs/PrintedTrue.antt).
#[tactic(auto, unfolding(crate::specs::Printed::answer_word, ranges::specs::Quote::quote_values_of, ranges::specs::Quote::refused_quote))]
fn put_answer<const N: usize>(output: &mut Output<N>, quote: Result<Quote, Refusal>)
    ensures { output.new ≡ put output.old (answer_word (quote_values_of quote)) }
{
    match quote {
        Ok(Quote::All) => output.put(b"ALL\n"),
        Ok(Quote::Some) => output.put(b"SOME\n"),
        Ok(Quote::None) | Err(_) => output.put(b"NONE\n"),
    }
}

// The ranges of which the quotes are printed.
#[derive(Clone, Copy)]
struct QuotedRanges(RangedTable);

impl<const N: usize> Lines<N> for QuotedRanges {
    ghost line = { λ q. quote_line q.0 };

    #[tactic(auto, using(text::proofs::Putting::put_append), unfolding(crate::specs::Printed::quote_line))]
    fn put_line(&self, output: &mut Output<N>, cores: u32) {
        output.put_number(cores as u64);
        output.put(b" ");
        put_answer(output, judge_ranges(self.0, cores));
    }
}

// The line of names and the lines of the numbers of cores.
#[tactic(auto, unfolding(crate::specs::Printed::header))]
pub fn put_quotes(output: &mut Printed, table: RangedTable)
    ensures { output.new ≡ put output.old (header ++ lines_up_to (quote_line table) (min max_cores table.count)) }
{
    lines::put_lines(output, b"CORES ANSWER\n", &QuotedRanges(table), table.count);
}
