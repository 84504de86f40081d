// The CPU rule: which nodes are children of `/cpus` that stand for a CPU, what number their `reg` says, and how the ids of a
// request are judged by them.
#![tactic(auto)]

pub mod children;
pub mod judged;
pub mod register;
