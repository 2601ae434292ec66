// The combination of text and graphic.
ghost use Rattle.std.specs.Prelude.{◌≡◌};
ghost use Rattle.state.specs.Combination.{is_attribute, combined, mixed, mixed_round};

use super::registers::{Combination, DisplayBits};
use ground::bytes::low;

// a function, though it is `==`: docs/PROMISES.md names it
/// Whether it is attribute mode.
pub fn is_attribute(combination: Combination) -> bool
    ensures { result ≡ is_attribute combination }
{
    combination == Combination::Attribute
}

/// What text and graphic show together.
pub fn combine(combination: Combination, text: u8, graphic: u8) -> u8
    ensures { result ≡ combined combination text graphic }
{
    match combination {
        Combination::Or => text | graphic,
        Combination::Exor => text ^ graphic,
        Combination::And => text & graphic,
        Combination::Attribute => text,
    }
}

// Two flags, as the definition `mixed` takes them: `DisplayBits` has two more, of the cursor.
//
// The layers that are on, together.
fn mix(text_on: bool, graphic_on: bool, combination: Combination, text: u8, graphic: u8) -> u8
    ensures { result ≡ mixed text_on graphic_on combination text graphic }
{
    if text_on {
        if graphic_on {
            return combine(combination, text, graphic);
        }
        return text;
    }
    graphic
}

// Bits and combination, and no `Display`: docs/PROMISES.md names this.
/// Cells of text, the graphic's bytes mixed in from an address on, round; a memory of another length leaves them as they were.
pub fn mix_round(
    bits: DisplayBits,
    combination: Combination,
    width: usize,
    mem: &[u8],
    start: u16,
    cells: &mut [u8],
)
    ensures { cells.new ≡ mixed_round bits.text bits.graphic combination width mem.now start cells.old }
{
    if mem.len() == 65536 {
        // by hand, as in `ground::stretches::read_round`
        let mut at = start;
        for cell in cells.iter_mut() {
            let graphic = low(width, mem[at as usize]);
            *cell = mix(bits.text, bits.graphic, combination, *cell, graphic);
            at = at.wrapping_add(1);
        }
    }
}
