// Bytes, lists made from a rule, dots packed into bytes: definitions and laws that every crate above cites.
#![tactic(auto)]

pub mod bytes;
pub mod cells;
pub mod stretches;
