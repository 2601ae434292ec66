// The layers of one cell, for whoever asks.
ghost use Rattle.std.specs.Prelude.{◌≡◌};
ghost use Rattle.sight.specs.Answered.{seen};
ghost use Rattle.sight.specs.Seen.{layers_of};

use display::seen::row_layers;
use state::panel::Panel;
use state::refusal::Refusal;
use state::registers::Display;

/// The low w bits of a cell's text, of its graphic and of what comes of them, without cursor.
#[derive(Clone, Copy, Debug, PartialEq, Eq)]
pub struct Seen {
    pub text: u8,
    pub graphic: u8,
    pub shown: u8,
}

/// The layers of any dot row in any column: memory of 65,536 bytes, ROM of 1,024. Invalid, then WrongLength.
pub fn layers(
    panel: Panel,
    display: Display,
    mem: &[u8],
    rom: &[u8],
    row: usize,
    column: usize,
) -> Result<Seen, Refusal>
    ensures { seen result ≡ layers_of panel display mem.now rom.now row column }
{
    let mut text = [0u8; 1];
    let mut graphic = [0u8; 1];
    let mut shown = [0u8; 1];
    row_layers(
        panel,
        display,
        mem,
        rom,
        row,
        column,
        &mut text,
        &mut graphic,
        &mut shown,
    )?;
    Ok(Seen {
        text: text[0],
        graphic: graphic[0],
        shown: shown[0],
    })
}
