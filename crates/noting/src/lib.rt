// Stores into a stretch of memory entered in a list: one by one, a command's, and those of a block of data.
#![tactic(auto)]

pub mod block;
pub mod note;
pub mod say;
pub mod stretch;
