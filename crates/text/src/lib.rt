// Texts: bytes, fields and numbers of a text that is read, and one way to put a text together in an array.
#![tactic(auto)]

pub mod bytes;
pub mod fields;
pub mod number;
pub mod output;
