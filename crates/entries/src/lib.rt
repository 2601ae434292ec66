// What differs in two lists of bytes and in two of numbers, three numbers an entry.
#![tactic(auto)]

pub mod enter;
pub mod list;
