// From a screen that is shown to another by what differs.
#![tactic(auto)]

mod changes;
mod put;
pub mod write;
