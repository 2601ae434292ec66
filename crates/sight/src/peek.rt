// Peek: the latch takes the displayed byte that the pointer stands at.
ghost use Rattle.std.specs.Prelude.{◌≡◌};
ghost use Rattle.effects.specs.Effect.{with_bus};
ghost use Rattle.effects.specs.Machine.{machine};
ghost use Rattle.sight.specs.Sight.{peek_of, position, peeked_of};
ghost use Rattle.sight.specs.Ready.{Seeing};

use crate::door::sees;
use crate::position::{Position, find};
use crate::seen::layers;
use state::panel::Panel;
use state::registers::Registers;

fn look(registers: &mut Registers, panel: Panel, memory: &[u8], rom: &[u8])
    requires { Seeing panel registers.old.display memory.now rom.now }
    ensures { registers.new ≡ with_bus registers.old (peek_of panel rom.now (machine registers.old memory.now) (position panel registers.old)) }
{
    let display = registers.display;
    let bus = &mut registers.bus;
    match find(panel, display.graphic, bus.pointer) {
        Some(Position { row, column }) => {
            bus.latch = layers(panel, display, memory, rom, row, column)
                .unwrap()
                .shown;
            bus.error = false;
        }
        None => bus.error = true,
    }
}

/// The latch takes the displayed byte of the pointer's position, and error is reset; where the pointer has none, error is set. A panel, a display
/// group or lengths that are not right leave the bus as it was.
#[tactic(auto, unfolding(crate::specs::Sight::peeked_of))]
pub fn peek(registers: &mut Registers, panel: Panel, memory: &[u8], rom: &[u8])
    ensures { registers.new ≡ with_bus registers.old (peeked_of panel registers.old memory.now rom.now) }
{
    if sees(panel, registers.display, memory, rom) {
        look(registers, panel, memory, rom);
    }
}
