// A pair of a run: what it leaves where it is taken, what its number does, and many data at once.
#![tactic(auto)]

pub mod block;
pub mod note;
pub mod taken;
