// Which rows changed: a flag for each dot row beside the memory.
#![tactic(auto)]

pub mod follow;
pub mod refresh;
