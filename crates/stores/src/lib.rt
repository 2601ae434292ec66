// Which bytes a pair stores.
#![tactic(auto)]

pub mod stores;
