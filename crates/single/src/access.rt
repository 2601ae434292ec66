// One access, registers by value.
ghost use Rattle.std.specs.Prelude.{◌≡◌, OnErr, IfOk, IfSome};
ghost use Rattle.single.specs.Outcome.{outcome, entered_of};

use crate::step;
use state::panel::Panel;
use state::refusal::Refusal;
use state::registers::Registers;

/// What an access comes to, and the registers then.
#[derive(Clone, Copy, Debug, PartialEq, Eq)]
pub struct Done {
    pub registers: Registers,
    pub answer: Result<Option<u8>, Refusal>,
}

// By value, for a run's loop: a local that is lent would stay in memory for the whole loop. Parameters as `step::access` takes them.
/// `step::access` on registers by value.
pub fn accessed(
    panel: Panel,
    registers: Registers,
    memory: &mut [u8],
    rom: &[u8],
    kind: u8,
    byte: u8,
) -> Done
    ensures step { outcome result.answer result.registers memory.new ≡ entered_of panel registers memory.old rom.now (record { kind = kind; byte = byte }) }
    ensures err { OnErr result.answer ((result.registers ≡ registers) × (memory.new ≡ memory.old)) }
    ensures read { IfOk result.answer (λ answer. IfSome answer (λ _. memory.new ≡ memory.old)) }
{
    let mut after = registers;
    let answer = step::access(&mut after, panel, memory, rom, kind, byte);
    Done {
        registers: after,
        answer,
    }
}
