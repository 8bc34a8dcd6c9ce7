// The slot machine: document 01, "The slot machine".
#![tactic(auto)]

pub mod answer;
pub mod call;
mod commit;
mod finish;
mod held;
pub mod machine;
mod offer;
mod pick;
mod release;
mod slot;
mod slot_with;
mod sound;
pub mod start;
