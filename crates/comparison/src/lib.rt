// Two logs side by side: what differs when both have run.
#![tactic(auto)]

pub mod compare;
mod dots;
