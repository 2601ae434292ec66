// Who wrote there: the stores of a log into a stretch of memory.
#![tactic(auto)]

mod held;
pub mod list;
mod pair;
