// The commands.
ghost use Rattle.std.specs.Prelude.{◌≡◌};
ghost use Rattle.codes.specs.Command.{needed_of, ends_auto, is_off};

use state::registers::{Auto, Combination, DisplayBits, Move, Target};

/// A command, as its code says it.
#[derive(Clone, Copy, Debug, PartialEq, Eq)]
pub enum Command {
    Set(Target),
    /// Whether codes are external, and the combination.
    Mode(bool, Combination),
    DisplayMode(DisplayBits),
    Height(u8),
    Run(Auto),
    Store(Move),
    Load(Move),
    Peek,
    Copy,
    /// Whether it is set, and which bit, 0 to 7.
    Bit(bool, u8),
}

// a function: with a bare `==` two goals of single's `command` did not close alone; the definition has this name
/// Whether auto is off.
pub fn is_off(auto: Auto) -> bool
    ensures { result ≡ is_off auto }
{
    auto == Auto::Off
}

impl Command {
    /// How many data it needs, 0 to 2.
    pub fn needed(self) -> u8
        ensures { result ≡ needed_of self }
    {
        match self {
            Command::Set(_) => 2,
            Command::Store(_) => 1,
            _ => 0,
        }
    }

    /// Whether it is B2H, the one code taken in auto.
    pub fn ends_auto(self) -> bool
        ensures { result ≡ ends_auto self }
    {
        matches!(self, Command::Run(Auto::Off))
    }
}
