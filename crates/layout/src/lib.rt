// Books laid out anew: moved from one form to the other, or saved where they are torn.
#![tactic(auto)]

mod lay;
pub mod moves;
mod put;
mod reading;
pub mod saved;
pub mod saving;
