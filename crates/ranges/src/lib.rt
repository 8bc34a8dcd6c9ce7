// Quotes over ranges: document 02, change 9.
#![tactic(auto)]

use crate::check::check_ranges;
use crate::corner::Corner;
use crate::table::RangedTable;
use judge::judge;
use tasks::refusals::Refusal;

pub mod check;
pub mod corner;
pub mod table;
pub mod task;

ghost use Rattle.std.specs.Prelude.{◌≡◌};
ghost use Rattle.ranges.specs.Quote.{quote_values_of, quoted};
ghost use Rattle.ranges.specs.Promise.{Says};

// For which tables within the ranges the window test admits the table.
#[derive(Clone, Copy, PartialEq, Eq)]
pub enum Quote {
    All,
    Some,
    None,
}

// The quote of ranges and a number of cores, or why they cannot be quoted. It is true of every table within the ranges.
pub fn judge_ranges(table: RangedTable, cores: u32) -> Result<Quote, Refusal>
    ensures values { quote_values_of result ≡ quoted table cores }
    ensures says { Says result table cores }
{
    check_ranges(table, cores)?;
    let dearest = judge(table.at(Corner::Dearest), cores)?;
    if dearest.admitted {
        return Ok(Quote::All);
    }
    let cheapest = judge(table.at(Corner::Cheapest), cores)?;
    if cheapest.admitted {
        return Ok(Quote::Some);
    }
    Ok(Quote::None)
}
