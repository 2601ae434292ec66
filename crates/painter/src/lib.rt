// A picture's dots, packed as a frame: a screen of a book drawn, with no controller.
#![tactic(auto)]

mod cell;
mod cursor;
pub mod draw;
mod paint;
mod scene;
