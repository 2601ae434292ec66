// One access that keeps the flags, and their start.
ghost use Rattle.std.specs.Prelude.{◌≡◌, length, OnErr, IfOk, IfSome};
ghost use Rattle.effects.specs.Machine.{machine};
ghost use Rattle.flags.specs.Flags.{all_set, with_flags, flag_step};
ghost use Rattle.single.specs.Outcome.{acted};
ghost use Rattle.flags.specs.Follow.{followed, follow_of};
ghost use Rattle.flags.specs.Outcome.{flag_outcome, flag_entered_of};
ghost use Rattle.flags.specs.Ready.{Following};

use single::step;
use state::panel::Panel;
use state::refusal::Refusal;
use state::registers::Registers;
use stores::stores::stores;
use touch::touch::mark;

/// Sets every flag, one for each dot row: 1.
pub fn start(flags: &mut [u8])
    ensures { flags.new ≡ all_set (length flags.old) }
{
    flags.fill(1);
}

// Parameters one by one, and `kind` a number beside `byte`, as docs/PROMISES.md has `access` below, which hands them on.
//
// A pair on what is known to be valid; a refused one leaves the flags as they were.
pub(crate) fn follow(
    registers: &mut Registers,
    panel: Panel,
    memory: &mut [u8],
    rom: &[u8],
    kind: u8,
    byte: u8,
    flags: &mut [u8],
) -> Result<Option<u8>, Refusal>
    requires { Following panel registers.old memory.old rom.now flags.old }
    ensures step { flag_outcome result registers.new memory.new flags.new ≡ flag_step panel rom.now (with_flags (machine registers.old memory.old) flags.old) (record { kind = kind; byte = byte }) }
    ensures err { OnErr result ((registers.new ≡ registers.old) × ((memory.new ≡ memory.old) × (flags.new ≡ flags.old))) }
    ensures read { IfOk result (λ answer. IfSome answer (λ _. (memory.new ≡ memory.old) × (flags.new ≡ flags.old))) }
{
    let before = *registers;
    let answer = step::access(registers, panel, memory, rom, kind, byte)?;
    let n = stores(panel, before, kind, byte);
    let altered = before.display != registers.display;
    mark(
        panel,
        before.display,
        memory,
        before.bus.pointer,
        n,
        altered,
        flags,
    );
    Ok(answer)
}

// The door is written out, as in `single::step`.
/// One access of anything that keeps the flags, one of 8 · lines for each dot row: the tests at the door, then the pair. What a read gives is
/// `Some`, and a read leaves memory and flags. A refused pair changes nothing: `Invalid` panel or registers, then `WrongLength` of memory (65,536), ROM (1,024) or flags, then the
/// refusals of a pair.
#[tactic(auto, unfolding(crate::specs::Outcome::flag_entered_of, crate::specs::Follow::follow_of))]
pub fn access(
    registers: &mut Registers,
    panel: Panel,
    memory: &mut [u8],
    rom: &[u8],
    kind: u8,
    byte: u8,
    flags: &mut [u8],
) -> Result<Option<u8>, Refusal>
    ensures followed { followed (acted result registers.new) memory.new flags.new ≡ follow_of panel registers.old memory.old rom.now (record { kind = kind; byte = byte }) flags.old }
    ensures step { flag_outcome result registers.new memory.new flags.new ≡ flag_entered_of panel registers.old memory.old rom.now (record { kind = kind; byte = byte }) flags.old }
    ensures err { OnErr result ((registers.new ≡ registers.old) × ((memory.new ≡ memory.old) × (flags.new ≡ flags.old))) }
    ensures read { IfOk result (λ answer. IfSome answer (λ _. (memory.new ≡ memory.old) × (flags.new ≡ flags.old))) }
{
    if !(panel.valid() & registers.valid()) {
        return Err(Refusal::Invalid);
    }
    if !((memory.len() == 65536) & (rom.len() == 1024) & (flags.len() == 8 * panel.lines)) {
        return Err(Refusal::WrongLength);
    }
    follow(registers, panel, memory, rom, kind, byte, flags)
}
