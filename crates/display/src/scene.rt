// What a picture is laid from, tested once at the door, with the glyphs and the shades worked out of it.
ghost use Rattle.std.specs.Prelude.{◌≡◌, ◌<◌, ℕ, true, length, slice_index};
ghost use Rattle.state.specs.State.{valid_panel, valid_display};
ghost use Rattle.state.specs.Attribute.{shades_of};
ghost use Rattle.state.specs.Combination.{is_attribute};
ghost use Rattle.display.specs.Shaded.{IsFont};

use state::panel::Panel;
use state::registers::Display;

#[derive(Drop)]
pub(crate) struct Scene<'a> {
    pub panel: Panel,
    pub display: Display,
    pub mem: &'a [u8],
    pub font: &'a [u8],
    pub shades: &'a [u8],
    ghost valid_panel: { valid_panel panel ≡ true },
    ghost valid_display: { valid_display display ≡ true },
    ghost memory: { length mem.now ≡ 65536 },
    ghost bytes: { (i : ℕ) → slice_index mem.now i < 256 },
    ghost glyphs: { IsFont display mem.now font.now },
    ghost shaded: { is_attribute display.combination ≡ true → shades.now ≡ shades_of panel.width display.phase },
}
