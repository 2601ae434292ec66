// What the data of a command set.
use state::registers::{Registers, Target};
use std::fmt;

/// What a target holds: a number, an address as `4000H`, of the cursor X and Y.
#[derive(Clone, Copy, Debug, PartialEq, Eq)]
pub struct Held {
    pub target: Target,
    pub registers: Registers,
}

impl fmt::Display for Held {
    fn fmt<W: fmt::Write>(&self, f: &mut fmt::Formatter<W>) -> fmt::Result {
        let display = self.registers.display;
        match self.target {
            Target::Cursor => write!(f, "{}, {}", display.cursor.x, display.cursor.y),
            Target::Offset => write!(f, "{}", display.offset),
            Target::Pointer => write!(f, "{:04X}H", self.registers.bus.pointer),
            Target::TextHome => write!(f, "{:04X}H", display.text.home),
            Target::TextArea => write!(f, "{}", display.text.area),
            Target::GraphicHome => write!(f, "{:04X}H", display.graphic.home),
            Target::GraphicArea => write!(f, "{}", display.graphic.area),
        }
    }
}
