// The nodes of a tree by their paths, over the structure block and the node table: which is below which, which has a given path,
// and a path spelled out. No path is kept: a node's name and its parent's number are enough.
#![tactic(auto)]

pub mod lookup;
pub mod nodes;
pub mod order;
pub mod spelling;
