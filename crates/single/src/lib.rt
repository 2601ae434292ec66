// A single access.
#![tactic(auto)]

pub mod access;
pub mod step;
