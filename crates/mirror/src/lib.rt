// Frames in XBM's order, which the manual is pasted from.
#![tactic(auto)]

pub mod convert;
mod table;
