// References between nodes: which properties hold them, how many words follow each, and which node a phandle names.
#![tactic(auto)]

pub mod cells;
pub mod rows;
pub mod scan;
pub mod table;
