// Commands of the display.
ghost use Rattle.usual.specs.Done.{drawn};
ghost use Rattle.usual.specs.Ready.{Draws};

use effects::effect::with_mode;
use state::registers::{Combination, Cursor, Display, DisplayBits};

// Codes once more beside `codes::decode`: a decoded command is an enum and goes through memory (docs/SPEED.md). `quiet` as docs/PROMISES.md has
// `draw`.
/// The commands that need no data and change the display alone: mode, display bits, cursor height; the display then. Any other is left, and
/// gives none. `quiet` says that this is a command and auto is off; where it is not, all is left.
pub fn draw(display: Display, quiet: bool, code: u8) -> Option<Display>
    ensures { Draws display quiet code (drawn display result) }
{
    if !quiet {
        return None;
    }
    let high = code / 16;
    let low = code % 16;
    match high {
        8 => {
            let kind = low % 8;
            let combination = match kind {
                0 => Combination::Or,
                1 => Combination::Exor,
                3 => Combination::And,
                4 => Combination::Attribute,
                _ => return None,
            };
            Some(with_mode(display, (low >> 3) % 2 == 1, combination))
        }
        9 => {
            let bits = DisplayBits {
                graphic: (low >> 3) % 2 == 1,
                text: (low >> 2) % 2 == 1,
                cursor: (low >> 1) % 2 == 1,
                blink: (low >> 0) % 2 == 1,
            };
            Some(Display { bits, ..display })
        }
        10 => {
            if low < 8 {
                let cursor = Cursor {
                    height: low + 1,
                    ..display.cursor
                };
                Some(Display { cursor, ..display })
            } else {
                None
            }
        }
        _ => None,
    }
}
