// All of a log by the stopping run, whatever its length.
#![tactic(auto)]

pub mod all;
