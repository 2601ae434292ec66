// A screen of a book becomes a stream of pairs.
#![tactic(auto)]

pub mod homes;
mod opening;
pub mod put;
pub mod stream;
pub mod write;
