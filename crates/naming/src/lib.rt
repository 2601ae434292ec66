// What a pair was, in words.
#![tactic(auto)]

mod names;
pub mod pair;
