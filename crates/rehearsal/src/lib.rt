// A screen written, run on a controller and painted.
#![tactic(auto)]

pub mod rehearse;
