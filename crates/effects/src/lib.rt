// What the parts of an access do to the registers.
#![tactic(auto)]

pub mod effect;
pub mod store;
