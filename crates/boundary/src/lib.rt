// The controller for C: numbers and slices, the registers as bytes.
#![tactic(auto)]

pub mod exports;
