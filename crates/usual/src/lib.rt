// The pairs that a drawing program sends most, taken apart from the others: done as a step does them, with no test of the door; any other is left.
#![tactic(auto)]

pub mod ask;
pub mod draw;
pub mod part;
pub mod tell;
