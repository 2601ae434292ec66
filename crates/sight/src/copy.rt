// Copy: graphic bytes become what is displayed, from the pointer's position to the row's end.
ghost use Rattle.std.specs.Prelude.{◌≡◌};
ghost use Rattle.effects.specs.Machine.{machine};
ghost use Rattle.sight.specs.Sight.{copy_of, position, copied_all};
ghost use Rattle.sight.specs.Ready.{Seeing};

use crate::door::sees;
use crate::line::{gather, store};
use crate::position::{Position, find};
use state::combination::is_attribute;
use state::panel::Panel;
use state::registers::Registers;

// Two ways to the error, as the definition `copy_of` has them.
fn copy_row(registers: &mut Registers, panel: Panel, memory: &mut [u8], rom: &[u8])
    requires { Seeing panel registers.old.display memory.old rom.now }
    ensures { machine registers.new memory.new ≡ copy_of panel rom.now (machine registers.old memory.old) (position panel registers.old) }
{
    let display = registers.display;
    let bus = &mut registers.bus;
    match find(panel, display.graphic, bus.pointer) {
        Some(Position { row, column }) => {
            if panel.dual | is_attribute(display.combination) {
                bus.error = true;
                return;
            }
            let line = gather(panel, display, memory, rom, row, column);
            store(memory, bus.pointer, line);
            bus.error = false;
        }
        None => bus.error = true,
    }
}

/// What is displayed from the pointer's position to its row's end becomes the row's graphic bytes there, all gathered before any is stored, and
/// error is reset; where the pointer has no position, in attribute mode and on a panel in two halves error is set and nothing stored. A panel, a
/// display group or lengths that are not right leave all as it was.
#[tactic(auto, unfolding(crate::specs::Sight::copied_all))]
pub fn copy(registers: &mut Registers, panel: Panel, memory: &mut [u8], rom: &[u8])
    ensures { machine registers.new memory.new ≡ copied_all panel registers.old memory.old rom.now }
{
    if sees(panel, registers.display, memory, rom) {
        copy_row(registers, panel, memory, rom);
    }
}
