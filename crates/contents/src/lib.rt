// The contents of a book: its bytes and words, its entries, and where a screen's body lies.
#![tactic(auto)]

pub mod ask;
pub mod bytes;
pub mod entry;
pub mod open;
pub mod spans;
