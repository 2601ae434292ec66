// The registers for others: as 25 bytes and as 17 numbers; what a call with registers as bytes does before and after.
#![tactic(auto)]

pub mod door;
pub mod image;
pub mod values;
