// The glyphs of all codes side by side, put together once for all rows: of any code a row is then found without a test.
ghost use Rattle.std.specs.Prelude.{◌≡◌, ◌<◌, length};
ghost use Rattle.display.specs.Shaded.{font_of};

use ground::stretches::give;
use state::registers::Display;

// Eight rows of each code: all from memory, or below 80H from the ROM. Into room that is lent: an array that is handed out lies on the stack
// twice, and is copied.
pub(crate) fn font(display: Display, mem: &[u8], rom: &[u8], glyphs: &mut [u8])
    requires lent { (length mem.now ≡ 65536) × (length rom.now ≡ 1024) × (display.offset < 32) }
    requires room { length glyphs.old ≡ 2048 }
    ensures { glyphs.new ≡ font_of display mem.now rom.now }
{
    let bank = 2048 * (display.offset as usize);
    give(&mem[bank..bank + 2048], glyphs);
    if !display.external {
        give(rom, glyphs);
    }
}
