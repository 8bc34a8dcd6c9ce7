// One task's job: its record, what a slot does to it, whether it is sound, and the search for the next runner among jobs.
#![tactic(auto)]

pub mod job;
pub mod rank;
pub mod search;
mod slot;
mod sound;
