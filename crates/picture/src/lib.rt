// A screen of a book becomes planes, with no register in sight.
#![tactic(auto)]

mod apply;
pub mod cursor;
pub mod plan;
mod plane;
pub mod style;
