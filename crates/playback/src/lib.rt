// A log of any length, played part by part.
#![tactic(auto)]

pub mod play;
