// What the panel shows: from a state and the lent memory every dot.
#![tactic(auto)]

mod cursor;
mod door;
mod font;
pub mod frame;
mod layers;
mod row;
mod scene;
pub mod seen;
