// What the controller sees of its own panel: a cell's layers, the pointer's position, peek and copy.
#![tactic(auto)]

pub mod copy;
mod door;
mod line;
pub mod peek;
pub mod position;
pub mod seen;
