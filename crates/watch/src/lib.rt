// A run that keeps the flags.
#![tactic(auto)]

pub mod run;
