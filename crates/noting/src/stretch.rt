// A stretch of memory.
ghost use Rattle.std.specs.Prelude.{◌≡◌};
ghost use Rattle.noting.specs.Stretch.{in_stretch};
ghost use Rattle.noting.specs.Laid.{Spans};

/// From a first address to a last one; a first above the last means through FFFFH to 0000H.
#[derive(Clone, Copy, Debug, PartialEq, Eq)]
pub struct Stretch {
    pub first: u16,
    pub last: u16,
}

impl Stretch {
    /// Whether an address lies in it.
    pub fn holds(self, address: u16) -> bool
        ensures { result ≡ in_stretch self.first self.last address }
    {
        if self.first <= self.last {
            return (self.first <= address) & (address <= self.last);
        }
        (self.first <= address) | (address <= self.last)
    }

    // How many addresses from one on lie as it does, inside or outside; inside none past FFFFH.
    pub(crate) fn span(self, at: u16) -> usize
        ensures { Spans self.first self.last at result }
    {
        if self.holds(at) {
            if at <= self.last {
                return (self.last - at) as usize + 1;
            }
            return 65536 - at as usize;
        }
        self.first.wrapping_sub(at) as usize
    }
}
