// The texts that the programs print.
#![tactic(auto)]

pub mod dot;
pub mod fill;
pub mod input;
pub mod parts;
pub mod put;
pub mod screen;
pub mod told;
