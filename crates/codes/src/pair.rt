// A pair of the bus: what is done, and its byte.
ghost use Rattle.std.specs.Prelude.{◌≡◌};
ghost use Rattle.codes.specs.Pairs.{kind_number, Kinds};

use state::refusal::Refusal;

/// What a pair does on the bus. A log has each as its place here, from 0 on: `Kind::Data as u8`.
#[derive(Clone, Copy, Debug, PartialEq, Eq)]
pub enum Kind {
    Data,
    Command,
    Read,
    Status,
    Tick,
}

/// A pair of the bus.
#[derive(Clone, Copy, Debug, PartialEq, Eq)]
pub struct Pair {
    pub kind: Kind,
    pub byte: u8,
}

impl Kind {
    /// The byte that stands for it in a log.
    pub fn number(self) -> u8
        ensures { result ≡ kind_number self }
    {
        self as u8
    }
}

impl TryFrom<u8> for Kind {
    type Error = Refusal;

    ghost try_from_gives = { Kinds };

    fn try_from(number: u8) -> Result<Self, Refusal> {
        match number {
            0 => Ok(Kind::Data),
            1 => Ok(Kind::Command),
            2 => Ok(Kind::Read),
            3 => Ok(Kind::Status),
            4 => Ok(Kind::Tick),
            _ => Err(Refusal::UnknownKind),
        }
    }
}
