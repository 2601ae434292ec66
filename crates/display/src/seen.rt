// The layers of a dot row, for whoever asks.
ghost use Rattle.std.specs.Prelude.{◌≡◌, OnErr};
ghost use Rattle.state.specs.Replies.{reply};
ghost use Rattle.display.specs.Layers.{stretch, row_layers_of};

use super::door::admit;
use super::font::font;
use super::layers::tables;
use super::scene::Scene;
use state::panel::Panel;
use state::refusal::Refusal;
use state::registers::Display;

// Lists and state as parameters: docs/PROMISES.md names this, and each list is lent by whoever asks.
/// The layers of any dot row from any column on, into three lists of one length, a cell each: memory of 65,536 bytes, ROM of 1,024. The
/// formulas go on modulo 65,536 past the panel. Invalid, then WrongLength, and the lists are then as they were.
pub fn row_layers(
    panel: Panel,
    display: Display,
    mem: &[u8],
    rom: &[u8],
    row: usize,
    column: usize,
    text: &mut [u8],
    graphic: &mut [u8],
    shown: &mut [u8],
) -> Result<(), Refusal>
    ensures answer { stretch (reply result) text.new graphic.new shown.new ≡ row_layers_of panel display mem.now rom.now row column text.old graphic.old shown.old }
    ensures err { OnErr result ((text.new ≡ text.old) × (graphic.new ≡ graphic.old) × (shown.new ≡ shown.old)) }
{
    let valid = panel.valid() & display.valid();
    let alike = (text.len() == shown.len()) & (graphic.len() == shown.len());
    admit(valid, mem, rom, alike)?;
    let mut glyphs = [0u8; 2048];
    font(display, mem, rom, &mut glyphs);
    let shades = tables(panel, display);
    let scene = Scene {
        panel,
        display,
        mem,
        font: &glyphs,
        shades: &shades,
    };
    scene.lay(row, column, text, graphic, shown);
    Ok(())
}
