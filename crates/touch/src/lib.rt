// Which rows some addresses touch.
#![tactic(auto)]

pub mod touch;
