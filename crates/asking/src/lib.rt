// A screen of a book becomes a stream that asks for status before each write.
#![tactic(auto)]

pub mod asking;
mod spread;
