// The run of a log.
#![tactic(auto)]

pub mod run;
mod turn;
