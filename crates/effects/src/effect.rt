// What the parts of an access do to the registers.
ghost use Rattle.std.specs.Prelude.{◌≡◌, if◌then◌else◌};
ghost use Rattle.effects.specs.Effect.{with_mode, with_auto, pushed, moved_of, set_of, is_write, is_read, auto_bits, bus_status, status_of};

use ground::bytes::word;
use state::registers::{Auto, Bus, Combination, Display, Move, Pending, Registers, Target};

/// The display in another mode: where its characters come from, and how text and graphic combine; all else as it was.
pub fn with_mode(display: Display, external: bool, combination: Combination) -> Display
    ensures { result ≡ with_mode display external combination }
{
    Display {
        external,
        combination,
        ..display
    }
}

/// The bus in another auto mode, all else as it was.
pub fn with_auto(bus: Bus, auto: Auto) -> Bus
    ensures { result ≡ with_auto bus auto }
{
    Bus { auto, ..bus }
}

/// The pointer moved: it runs from FFFFH to 0000H and back.
pub fn moved(direction: Move, pointer: u16) -> u16
    ensures { result ≡ moved_of direction pointer }
{
    match direction {
        Move::Up => pointer.wrapping_add(1),
        Move::Down => pointer.wrapping_sub(1),
        Move::Stay => pointer,
    }
}

/// The byte becomes the newest of the last two pending.
pub fn push(pending: &mut Pending, byte: u8)
    ensures { pending.new ≡ pushed pending.old byte }
{
    *pending = Pending {
        count: pending.count.min(1) + 1,
        older: pending.newest,
        newest: byte,
    };
}

/// What the data D1 and D2 are taken for.
pub fn set(registers: &mut Registers, target: Target, d1: u8, d2: u8)
    ensures { registers.new ≡ set_of target d1 d2 registers.old }
{
    let display = &mut registers.display;
    match target {
        Target::Cursor => {
            display.cursor.x = d1 % 128;
            display.cursor.y = d2 % 32;
        }
        Target::Offset => display.offset = d1 % 32,
        Target::Pointer => registers.bus.pointer = word(d1, d2),
        Target::TextHome => display.text.home = word(d1, d2),
        Target::TextArea => display.text.area = d1,
        Target::GraphicHome => display.graphic.home = word(d1, d2),
        Target::GraphicArea => display.graphic.area = d1,
    }
}

// Functions, here and below: they are the names that the definitions `is_write` and `is_read` stand over.
/// Whether data written go to the memory.
pub fn is_write(auto: Auto) -> bool
    ensures { result ≡ is_write auto }
{
    matches!(auto, Auto::Write)
}

/// Whether data are read from the memory.
pub fn is_read(auto: Auto) -> bool
    ensures { result ≡ is_read auto }
{
    matches!(auto, Auto::Read)
}

fn when(on: bool, bits: u8) -> u8
    ensures { result ≡ (if on then bits else 0) }
{
    if on { bits } else { 0 }
}

fn auto_bits(auto: Auto) -> u8
    ensures { result ≡ auto_bits auto }
{
    match auto {
        Auto::Off => 0b0011,
        Auto::Read => 0b0100,
        Auto::Write => 0b1000,
    }
}

/// The status byte, of the bus and the phase.
pub fn bus_status(bus: Bus, phase: bool) -> u8
    ensures { result ≡ bus_status bus phase }
{
    auto_bits(bus.auto) | 0x20 | when(bus.error, 0x40) | when(phase, 0x80)
}

/// The status byte.
pub fn status(registers: Registers) -> u8
    ensures { result ≡ status_of registers }
{
    bus_status(registers.bus, registers.display.phase)
}
