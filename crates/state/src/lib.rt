// The state of a controller: the panel, the registers, what is valid, the reset state; the attribute codes and the combinations; replies.
#![tactic(auto)]

pub mod attribute;
pub mod combination;
pub mod panel;
pub mod refusal;
pub mod registers;
pub mod reply;
