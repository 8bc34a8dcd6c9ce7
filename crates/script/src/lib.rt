// What the inputs and outputs of replay, probe and audit share: lines of calls and of their answers, and a line that is one word.
#![tactic(auto)]

pub mod calls;
pub mod output;
pub mod task;
pub mod word_line;
