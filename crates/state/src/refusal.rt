// Why something asked for is refused.
ghost use Rattle.std.specs.Prelude.{◌≡◌};
ghost use Rattle.state.specs.Refusals.{number_of, Numbers};

use std::error::Error;
use std::fmt;

/// Why something asked for is refused, in the order of its numbers, 1 to 19; `Display` says each in words.
#[derive(Clone, Copy, Debug, PartialEq, Eq)]
pub enum Refusal {
    Invalid = 1,
    WrongLength,
    UnknownKind,
    UndefinedCode,
    InAuto,
    DataMissing,
    WrongWay,
    OddLength,
    WrongBook,
    NoSuchScreen,
    WrongOperation,
    NoRoomForStream,
    NoRoomForAnswer,
    AnswersUneven,
    NoRoomInList,
    NoRoomForSkipped,
    OtherIdentities,
    TooLarge,
    UsesAnd,
}

/// A refusal and what it names: the pair, the byte, the screen or the size; 0 where it names nothing.
#[derive(Clone, Copy, Debug, PartialEq, Eq)]
pub struct Refused {
    pub refusal: Refusal,
    pub place: usize,
}

/// A number that no refusal has.
#[derive(Clone, Copy, Debug, PartialEq, Eq)]
pub struct NoRefusal(pub u8);

impl Refusal {
    /// The number that C and the programs give; 0 is acceptance.
    pub fn number(self) -> u8
        ensures { result ≡ number_of self }
    {
        self as u8
    }
}

// A refusal that names nothing.
impl From<Refusal> for Refused {
    ghost from_gives = { λ refusal refused. (refused.refusal ≡ refusal) × (refused.place ≡ 0) };

    fn from(refusal: Refusal) -> Refused {
        Refused { refusal, place: 0 }
    }
}

impl TryFrom<u8> for Refusal {
    type Error = NoRefusal;

    ghost try_from_gives = { Numbers };

    fn try_from(number: u8) -> Result<Self, NoRefusal> {
        Ok(match number {
            1 => Refusal::Invalid,
            2 => Refusal::WrongLength,
            3 => Refusal::UnknownKind,
            4 => Refusal::UndefinedCode,
            5 => Refusal::InAuto,
            6 => Refusal::DataMissing,
            7 => Refusal::WrongWay,
            8 => Refusal::OddLength,
            9 => Refusal::WrongBook,
            10 => Refusal::NoSuchScreen,
            11 => Refusal::WrongOperation,
            12 => Refusal::NoRoomForStream,
            13 => Refusal::NoRoomForAnswer,
            14 => Refusal::AnswersUneven,
            15 => Refusal::NoRoomInList,
            16 => Refusal::NoRoomForSkipped,
            17 => Refusal::OtherIdentities,
            18 => Refusal::TooLarge,
            19 => Refusal::UsesAnd,
            _ => return Err(NoRefusal(number)),
        })
    }
}

impl fmt::Display for Refusal {
    fn fmt<W: fmt::Write>(&self, f: &mut fmt::Formatter<W>) -> fmt::Result {
        f.write_str(match self {
            Refusal::Invalid => "the panel or the registers are not valid",
            Refusal::WrongLength => "a buffer that has one right length has another",
            Refusal::UnknownKind => "a pair's kind is above 4",
            Refusal::UndefinedCode => "a command code that the controller does not know",
            Refusal::InAuto => "a command other than B2H in auto mode",
            Refusal::DataMissing => "a command came with fewer data than it needs",
            Refusal::WrongWay => "data written in auto read, or read in auto write",
            Refusal::OddLength => "the log has an odd number of bytes",
            Refusal::WrongBook =>
                "the book's length, its number of screens or its contents are wrong",
            Refusal::NoSuchScreen => "there is no such screen",
            Refusal::WrongOperation => "an operation is unknown, cut off or out of range",
            Refusal::NoRoomForStream => "the room is too small",
            Refusal::NoRoomForAnswer => "an answer has no room in the answer buffer",
            Refusal::AnswersUneven => "recorded answers and reads are not equally many",
            Refusal::NoRoomInList => "the list has no room",
            Refusal::NoRoomForSkipped => "a refused pair has no room in the list of skipped pairs",
            Refusal::OtherIdentities => "the identities are other than 0 to n-1",
            Refusal::TooLarge => "the book passes 32,768 bytes",
            Refusal::UsesAnd => "the book uses AND",
        })
    }
}

impl fmt::Display for Refused {
    fn fmt<W: fmt::Write>(&self, f: &mut fmt::Formatter<W>) -> fmt::Result {
        write!(f, "{} (place {})", self.refusal, self.place)
    }
}

impl fmt::Display for NoRefusal {
    fn fmt<W: fmt::Write>(&self, f: &mut fmt::Formatter<W>) -> fmt::Result {
        write!(f, "no refusal has the number {}", self.0)
    }
}

impl Error for Refusal {}

impl Error for Refused {}

impl Error for NoRefusal {}
