// Refusals 11 and 12 of a structure block whose shape has passed: each a walk of its own over the tokens.
#![tactic(auto)]

pub mod cells;
pub mod shared;
mod words;
