// A log followed for C: a flag for each dot row, the flagged rows painted.
#![tactic(auto)]

pub mod following;
