// Who wrote there, for C.
#![tactic(auto)]

pub mod writing;
