// One access, on registers that it changes in place.
ghost use Rattle.std.specs.Prelude.{◌≡◌, length, OnErr, IfOk, IfSome};
ghost use Rattle.codes.specs.Command.{decode_of};
ghost use Rattle.effects.specs.Machine.{machine};
ghost use Rattle.effects.specs.Effect.{with_pending};
ghost use Rattle.sight.specs.Steps.{effect_of, obey_of, command_of, data_write_of, data_read_of, step_of};
ghost use Rattle.sight.specs.Ready.{Seeing};
ghost use Rattle.single.specs.Access.{replied, access_of};
ghost use Rattle.single.specs.Outcome.{acted, outcome, pair_of, entered_of};
ghost use Rattle.state.specs.State.{none};

use codes::command::{Command, is_off};
use codes::decode::decode;
use codes::pair::{Kind, Pair};
use effects::effect::{moved, push, set, status, with_auto, with_mode};
use effects::store::{change, fetch, put};
use sight::copy::copy;
use sight::peek::peek;
use state::panel::Panel;
use state::refusal::Refusal;
use state::registers::{Auto, Move, Pending, Registers};

// Panel, memory and ROM one by one: `access` and, behind the last of these steps, `peek` and `copy` take them so, and a struct would be put
// together for the way between.
//
// What a command does, the data pending still there.
fn effect(registers: &mut Registers, panel: Panel, memory: &mut [u8], rom: &[u8], command: Command)
    requires { Seeing panel registers.old.display memory.old rom.now }
    ensures { machine registers.new memory.new ≡ effect_of panel rom.now (machine registers.old memory.old) command }
{
    let pending = registers.bus.pending;
    let display = &mut registers.display;
    let bus = &mut registers.bus;
    match command {
        Command::Set(target) => set(registers, target, pending.older, pending.newest),
        Command::Mode(external, combination) => {
            *display = with_mode(*display, external, combination)
        }
        Command::DisplayMode(bits) => display.bits = bits,
        Command::Height(height) => display.cursor.height = height,
        Command::Run(auto) => *bus = with_auto(*bus, auto),
        Command::Store(direction) => *bus = put(*bus, memory, pending.newest, direction),
        Command::Load(direction) => *bus = fetch(*bus, memory, direction),
        Command::Peek => peek(registers, panel, memory, rom),
        Command::Copy => copy(registers, panel, memory, rom),
        Command::Bit(on, bit) => change(bus.pointer, memory, bit, on),
    }
}

// A code: refused where it is undefined, in auto unless it is B2H, and where data are lacking.
fn command(
    registers: &mut Registers,
    panel: Panel,
    memory: &mut [u8],
    rom: &[u8],
    code: u8,
) -> Result<Option<u8>, Refusal>
    requires { Seeing panel registers.old.display memory.old rom.now }
    ensures step { outcome result registers.new memory.new ≡ command_of panel rom.now (machine registers.old memory.old) (decode_of code) }
    ensures err { OnErr result ((registers.new ≡ registers.old) × (memory.new ≡ memory.old)) }
    ensures read { IfOk result (λ answer. IfSome answer (λ _. memory.new ≡ memory.old)) }
{
    let Some(command) = decode(code) else {
        return Err(Refusal::UndefinedCode);
    };
    if !(command.ends_auto() | is_off(registers.bus.auto)) {
        return Err(Refusal::InAuto);
    }
    if registers.bus.pending.count < command.needed() {
        return Err(Refusal::DataMissing);
    }
    effect(registers, panel, memory, rom, command);
    registers.bus.pending = Pending::NONE;
    Ok(None)
}

fn data_write(registers: &mut Registers, memory: &mut [u8], byte: u8) -> Result<Option<u8>, Refusal>
    requires { length memory.old ≡ 65536 }
    ensures step { outcome result registers.new memory.new ≡ data_write_of registers.old.bus.auto (machine registers.old memory.old) byte }
    ensures err { OnErr result ((registers.new ≡ registers.old) × (memory.new ≡ memory.old)) }
    ensures read { IfOk result (λ answer. IfSome answer (λ _. memory.new ≡ memory.old)) }
{
    let bus = &mut registers.bus;
    match bus.auto {
        Auto::Off => push(&mut bus.pending, byte),
        Auto::Write => {
            memory[bus.pointer as usize] = byte;
            bus.pointer = moved(Move::Up, bus.pointer);
        }
        Auto::Read => return Err(Refusal::WrongWay),
    }
    Ok(None)
}

fn data_read(registers: &mut Registers, memory: &[u8]) -> Result<Option<u8>, Refusal>
    requires { length memory.now ≡ 65536 }
    ensures step { outcome result registers.new memory.now ≡ data_read_of registers.old.bus.auto (machine registers.old memory.now) }
    ensures err { OnErr result (registers.new ≡ registers.old) }
{
    let bus = &mut registers.bus;
    match bus.auto {
        Auto::Off => Ok(Some(bus.latch)),
        Auto::Write => Err(Refusal::WrongWay),
        Auto::Read => {
            let byte = memory[bus.pointer as usize];
            bus.pointer = moved(Move::Up, bus.pointer);
            Ok(Some(byte))
        }
    }
}

// One pair on a machine that is known to be valid.
fn step(
    registers: &mut Registers,
    panel: Panel,
    memory: &mut [u8],
    rom: &[u8],
    pair: Pair,
) -> Result<Option<u8>, Refusal>
    requires { Seeing panel registers.old.display memory.old rom.now }
    ensures step { outcome result registers.new memory.new ≡ step_of panel rom.now (machine registers.old memory.old) (pair_of pair) }
    ensures err { OnErr result ((registers.new ≡ registers.old) × (memory.new ≡ memory.old)) }
    ensures read { IfOk result (λ answer. IfSome answer (λ _. memory.new ≡ memory.old)) }
{
    match pair.kind {
        Kind::Data => data_write(registers, memory, pair.byte),
        Kind::Command => command(registers, panel, memory, rom, pair.byte),
        Kind::Read => data_read(registers, memory),
        Kind::Status => Ok(Some(status(*registers))),
        Kind::Tick => {
            registers.display.phase = !registers.display.phase;
            Ok(None)
        }
    }
}

// `kind` and `byte` side by side, and no `Pair`: docs/PROMISES.md names `access`, which refuses a kind above 4. The door is
// written out, and no function of two flags for all entries: each would still hold its own two tests as arguments.
/// One access of anything, on a memory of 65,536 bytes and a character ROM of 1,024: the tests at the door, then the pair. What a read gives
/// is `Some`, and a read leaves the memory. A refused pair changes nothing: `Invalid` panel or registers, `WrongLength`, `UnknownKind` above 4,
/// `UndefinedCode`, `InAuto`, `DataMissing`, `WrongWay`, in that order.
#[tactic(auto, unfolding(crate::specs::Outcome::entered_of, crate::specs::Access::access_of))]
pub fn access(
    registers: &mut Registers,
    panel: Panel,
    memory: &mut [u8],
    rom: &[u8],
    kind: u8,
    byte: u8,
) -> Result<Option<u8>, Refusal>
    ensures reply { replied (acted result registers.new) memory.new ≡ access_of panel registers.old memory.old rom.now (record { kind = kind; byte = byte }) }
    ensures step { outcome result registers.new memory.new ≡ entered_of panel registers.old memory.old rom.now (record { kind = kind; byte = byte }) }
    ensures err { OnErr result ((registers.new ≡ registers.old) × (memory.new ≡ memory.old)) }
    ensures read { IfOk result (λ answer. IfSome answer (λ _. memory.new ≡ memory.old)) }
{
    if !(panel.valid() & registers.valid()) {
        return Err(Refusal::Invalid);
    }
    if !((memory.len() == 65536) & (rom.len() == 1024)) {
        return Err(Refusal::WrongLength);
    }
    let kind = Kind::try_from(kind)?;
    step(registers, panel, memory, rom, Pair { kind, byte })
}
