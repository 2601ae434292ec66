// A pair in words.
use crate::names::{auto_name, combination_name, move_name, target_name};
use codes::command::Command;
use codes::decode::decode;
use codes::pair::Kind;
use state::refusal::Refusal;
use state::registers::{Registers, Target};
use std::fmt;
use words::bits::Bits;
use words::held::Held;

/// What a pair was, of any kind, with the registers behind it and what its access came to: the byte that it answered, or its refusal.
#[derive(Clone, Copy, Debug, PartialEq, Eq)]
pub struct Words {
    pub kind: u8,
    pub byte: u8,
    pub registers: Registers,
    pub access: Result<Option<u8>, Refusal>,
}

const DIGITS: [&str; 16] = [
    "0", "1", "2", "3", "4", "5", "6", "7", "8", "9", "A", "B", "C", "D", "E", "F",
];

// A byte's two hex digits, not by `{:02X}`: that took a fifth of the time of a pair's line.
#[derive(Clone, Copy, Debug, PartialEq, Eq)]
struct Hex(u8);

// The byte that a read was answered, behind an arrow.
#[derive(Clone, Copy, Debug, PartialEq, Eq)]
struct Answered(Result<Option<u8>, Refusal>);

// A command; where its access was taken the registers behind it, which say what its data set.
#[derive(Clone, Copy, Debug, PartialEq, Eq)]
struct Called {
    command: Command,
    taken: Option<Registers>,
}

impl fmt::Display for Hex {
    fn fmt<W: fmt::Write>(&self, f: &mut fmt::Formatter<W>) -> fmt::Result {
        f.write_str(DIGITS[(self.0 / 16) as usize])?;
        f.write_str(DIGITS[(self.0 % 16) as usize])
    }
}

impl fmt::Display for Answered {
    fn fmt<W: fmt::Write>(&self, f: &mut fmt::Formatter<W>) -> fmt::Result {
        match self.0 {
            Ok(Some(answer)) => write!(f, " -> {}", Hex(answer)),
            _ => Ok(()),
        }
    }
}

impl Called {
    fn set<W: fmt::Write>(&self, f: &mut fmt::Formatter<W>, target: Target) -> fmt::Result {
        let name = target_name(target);
        match self.taken {
            Some(registers) => write!(f, "{name} = {}", Held { target, registers }),
            None => f.write_str(name),
        }
    }
}

impl fmt::Display for Called {
    fn fmt<W: fmt::Write>(&self, f: &mut fmt::Formatter<W>) -> fmt::Result {
        match self.command {
            Command::Set(target) => self.set(f, target),
            Command::Mode(false, combination) => write!(
                f,
                "mode: {}",
                combination_name(combination)
            ),
            Command::Mode(true, combination) => write!(
                f,
                "mode: {}, external",
                combination_name(combination)
            ),
            Command::DisplayMode(bits) => write!(f, "display: {}", Bits(bits)),
            Command::Height(height) => write!(f, "cursor height {height}"),
            Command::Run(auto) => write!(f, "auto {}", auto_name(auto)),
            Command::Store(direction) => write!(f, "store, pointer {}", move_name(direction)),
            Command::Load(direction) => write!(f, "load, pointer {}", move_name(direction)),
            Command::Peek => f.write_str("peek"),
            Command::Copy => f.write_str("copy"),
            Command::Bit(true, bit) => write!(f, "set bit {bit}"),
            Command::Bit(false, bit) => write!(f, "reset bit {bit}"),
        }
    }
}

impl Words {
    fn command<W: fmt::Write>(&self, f: &mut fmt::Formatter<W>) -> fmt::Result {
        let Some(command) = decode(self.byte) else {
            return f.write_str("undefined");
        };
        let called = Called {
            command,
            taken: self.access.is_ok().then_some(self.registers),
        };
        write!(f, "{called}")
    }
}

impl fmt::Display for Words {
    fn fmt<W: fmt::Write>(&self, f: &mut fmt::Formatter<W>) -> fmt::Result {
        let byte = Hex(self.byte);
        let answered = Answered(self.access);
        match Kind::try_from(self.kind) {
            Ok(Kind::Data) => write!(f, "data {byte}"),
            Ok(Kind::Command) => {
                write!(f, "command {byte} ")?;
                self.command(f)
            }
            Ok(Kind::Read) => write!(f, "data read{answered}"),
            Ok(Kind::Status) => write!(f, "status{answered}"),
            Ok(Kind::Tick) => f.write_str("tick"),
            Err(_) => write!(f, "kind {}", self.kind),
        }
    }
}
