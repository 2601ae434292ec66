// The door that peek and copy share. Panel, memory and ROM come one by one, here as in what is behind it: the public functions and
// `display::seen::row_layers` take them so, and no function between hands them on more than once.
ghost use Rattle.std.specs.Prelude.{◌≡◌};
ghost use Rattle.sight.specs.Sight.{sighted};

use state::panel::Panel;
use state::registers::Display;

// A `bool`, where other doors answer a refusal: what is not right leaves all as it was.
//
// A valid panel and display, and the lengths lent.
pub(crate) fn sees(panel: Panel, display: Display, mem: &[u8], rom: &[u8]) -> bool
    ensures { result ≡ sighted panel display mem.now rom.now }
{
    panel.valid() & display.valid() & ((mem.len() == 65536) & (rom.len() == 1024))
}
