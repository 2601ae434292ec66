// What a picture is painted from, tested once at the door.
ghost use Rattle.std.specs.Prelude.{◌≡◌, true, length};
ghost use Rattle.state.specs.State.{valid_panel};
ghost use Rattle.state.specs.Sizes.{cell_count};
ghost use Rattle.picture.specs.Ready.{graphic_bytes};

use picture::style::Style;
use state::panel::Panel;

/// A valid panel, the character ROM of 1,024 bytes, a screen's planes of C·8L, C·L and 1,024 bytes, its style, and the phase, true where
/// it is normal.
#[derive(Drop)]
pub(crate) struct Scene<'a> {
    pub panel: Panel,
    pub rom: &'a [u8],
    pub graphic: &'a [u8],
    pub codes: &'a [u8],
    pub glyphs: &'a [u8],
    pub style: Style,
    pub phase: bool,
    ghost valid: { valid_panel panel ≡ true },
    ghost characters: { length rom.now ≡ 1024 },
    ghost rows: { length graphic.now ≡ graphic_bytes panel },
    ghost cells: { length codes.now ≡ cell_count panel },
    ghost shapes: { length glyphs.now ≡ 1024 },
}
