// The registers as numbers.
ghost use Rattle.std.specs.Prelude.{◌≡◌};
ghost use Rattle.image.specs.Registered.{bits_number, pending_number, register_values};

use state::registers::{DisplayBits, Pending, Registers};

// Functions, this and the next: `usize::from(bits)` would not say which bit is worth what, and these numbers are of this list alone.
fn bits_number(bits: DisplayBits) -> usize
    ensures { result ≡ bits_number bits }
{
    let graphic = usize::from(bits.graphic);
    let text = usize::from(bits.text);
    let cursor = usize::from(bits.cursor);
    let blink = usize::from(bits.blink);
    8 * graphic + 4 * text + 2 * cursor + blink
}

fn pending_number(pending: Pending) -> usize
    ensures { result ≡ pending_number pending }
{
    pending.count as usize + 256 * (pending.older as usize) + 65536 * (pending.newest as usize)
}

/// The seventeen registers, in the order of their names in docs/FORMATS.md.
pub fn register_values(registers: Registers) -> [usize; 17]
    ensures { result ≡ register_values registers }
{
    let display = registers.display;
    let bus = registers.bus;
    let combination = usize::from(u8::from(display.combination));
    let external = usize::from(display.external);
    let bits = bits_number(display.bits);
    let auto = usize::from(u8::from(bus.auto));
    let pending = pending_number(bus.pending);
    let error = usize::from(bus.error);
    let phase = usize::from(display.phase);
    [
        display.cursor.x as usize,
        display.cursor.y as usize,
        display.offset as usize,
        bus.pointer as usize,
        display.text.home as usize,
        display.graphic.home as usize,
        display.text.area as usize,
        display.graphic.area as usize,
        combination,
        external,
        bits,
        display.cursor.height as usize,
        auto,
        pending,
        bus.latch as usize,
        error,
        phase,
    ]
}
