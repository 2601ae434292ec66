// The command codes, taken apart.
#![tactic(auto)]

pub mod command;
pub mod decode;
pub mod pair;
