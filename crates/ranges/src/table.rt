// A table of tasks within ranges.
ghost use Rattle.std.specs.Prelude.{◌≡◌};
ghost use Rattle.ranges.specs.Ranges.{empty_ranges, corner_table};

use crate::corner::Corner;
use crate::task::{Range, RangedTask};
use tasks::limits::MAX_TASKS;
use tasks::table::Table;

// The first `count` entries are the table's tasks; the entries after them are no part of it. Not one generic type with `Table`: a generic struct with an
// array of a type parameter gets no proof where it is passed on.
#[derive(Clone, Copy)]
pub struct RangedTable {
    pub count: usize,
    pub tasks: [RangedTask; MAX_TASKS],
}

impl RangedTable {
    // The table of zero tasks with all its numbers 0.
    #[tactic(auto, unfolding(crate::specs::Ranges::empty_ranges, crate::specs::Ranges::zero_ranged_task))]
    pub fn empty() -> Self
        ensures { result ≡ empty_ranges }
    {
        let none = Range { least: 0, most: 0 };
        let zero = RangedTask {
            period: none,
            budget: none,
            deadline: 0,
        };
        RangedTable {
            count: 0,
            tasks: [zero; MAX_TASKS],
        }
    }

    // The table at a corner of the ranges, its entries past the count too.
    pub fn at(self, corner: Corner) -> Table
        ensures { result ≡ corner_table corner self }
    {
        Table {
            count: self.count,
            tasks: self.tasks.map(|task| task.at(corner)),
        }
    }
}
