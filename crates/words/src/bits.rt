// The display bits.
use state::registers::DisplayBits;
use std::fmt;

/// The names of the bits that are on, with commas between them; `off` where none is.
#[derive(Clone, Copy, Debug, PartialEq, Eq)]
pub struct Bits(pub DisplayBits);

impl fmt::Display for Bits {
    fn fmt<W: fmt::Write>(&self, f: &mut fmt::Formatter<W>) -> fmt::Result {
        let bits = self.0;
        let named = [
            (bits.text, "text"),
            (bits.graphic, "graphic"),
            (bits.cursor, "cursor"),
            (bits.blink, "blink"),
        ];
        let mut between = "";
        for (on, name) in named {
            if on {
                write!(f, "{between}{name}")?;
                between = ", ";
            }
        }
        if between.is_empty() {
            f.write_str("off")?;
        }
        Ok(())
    }
}
