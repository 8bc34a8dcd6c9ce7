// Task tables: the types, the limits, the refusal numbers, and whether a table and a number of cores can be used.
#![tactic(auto)]

pub mod check;
pub mod flags;
pub mod limits;
pub mod outcome;
pub mod refusals;
pub mod table;
pub mod task;
