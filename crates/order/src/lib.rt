// Neighbours in a screen whose order doesn't show.
#![tactic(auto)]

mod area;
pub mod swap;
