// Where a written screen has its three areas.
ghost use Rattle.std.specs.Prelude.{◌≡◌};
ghost use Rattle.writer.specs.Homes.{text_home};

use state::panel::Panel;

// A struct that is never made, and no constants of the module: docs/FORMS.md names these as associated constants.
/// Where the areas of a written screen begin.
#[derive(Clone, Copy)]
pub struct Homes {}

impl Homes {
    /// The graphic bytes, 8·C·L of them.
    pub const GRAPHIC: u16 = 0x0000;

    /// The text codes, C·L of them.
    pub const TEXT: u16 = 0x4000;

    /// The same of a panel in two halves.
    pub const TEXT_DUAL: u16 = 0x8000;

    /// The glyphs of codes 80H to FFH, eight bytes each.
    pub const GLYPHS: u16 = 0xfc00;
}

/// A panel's text home.
pub fn text_home(panel: Panel) -> u16
    ensures { result ≡ text_home panel }
{
    if panel.dual {
        Homes::TEXT_DUAL
    } else {
        Homes::TEXT
    }
}
