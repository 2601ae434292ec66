// The words of a command's parts: the display bits, what its data set.
#![tactic(auto)]

pub mod bits;
pub mod held;
