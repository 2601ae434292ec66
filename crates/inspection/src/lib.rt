// A recorded log and the bytes answered beside it, inspected: was status asked for first, and were the answers the controller's own?
#![tactic(auto)]

pub mod inspect;
pub mod look;
