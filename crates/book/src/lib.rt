// The operations of a screen, and a whole screen checked.
#![tactic(auto)]

pub mod check;
mod here;
pub mod operation;
mod product;
