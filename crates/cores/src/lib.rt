// The cores of tasks: which of them the runners of a slot have, and whether a record of them is sound.
#![tactic(auto)]

pub mod assign;
pub mod record;
