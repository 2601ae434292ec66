// The cursor of a picture.
ghost use Rattle.std.specs.Prelude.{◌≡◌};
ghost use Rattle.picture.specs.Laid.{laid};
ghost use Rattle.picture.specs.Picture.{lit_in};

use state::registers::Cursor;

/// A cursor laid over a picture, its column for X, its line for Y; and whether it blinks.
#[derive(Clone, Copy, Debug, PartialEq, Eq)]
pub struct Laid {
    pub cursor: Cursor,
    pub blink: bool,
}

impl Laid {
    /// Whether it shows in a phase, true where that is normal.
    pub fn lit(self, phase: bool) -> bool
        ensures { result ≡ lit_in (laid (Some self)) phase }
    {
        !self.blink | phase
    }
}
