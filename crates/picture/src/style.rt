// All of a picture but its planes.
ghost use Rattle.std.specs.Prelude.{◌≡◌};
ghost use Rattle.picture.specs.Laid.{laid};
ghost use Rattle.picture.specs.Picture.{lit_in};

use super::cursor::Laid;
use state::registers::Combination;

/// How text and graphic are combined, and the cursor laid over both, if there is one.
#[derive(Clone, Copy, Debug, PartialEq, Eq)]
pub struct Style {
    pub combination: Combination,
    pub cursor: Option<Laid>,
}

impl Style {
    /// OR, and no cursor.
    pub const BLANK: Style = Style {
        combination: Combination::Or,
        cursor: None,
    };

    /// Whether its cursor shows in a phase, true where that is normal; none shows where there is none.
    pub fn lit(self, phase: bool) -> bool
        ensures { result ≡ lit_in (laid self.cursor) phase }
    {
        self.cursor.is_some_and(|laid| laid.lit(phase))
    }
}
