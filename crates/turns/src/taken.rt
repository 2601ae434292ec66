// What a pair that is taken leaves.
use state::registers::Registers;

// By value: a local that is lent would stay in memory for a run's whole loop.
/// The registers behind it, and the answers given so far.
#[derive(Clone, Copy, Debug, PartialEq, Eq)]
pub struct Taken {
    pub registers: Registers,
    pub given: usize,
}
