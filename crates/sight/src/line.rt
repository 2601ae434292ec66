// The bytes of a line, gathered before any is stored.
ghost use Rattle.std.specs.Prelude.{◌≡◌, ◌+◌, ◌-◌, ◌<◌, ◌≤◌, length, take};
ghost use Rattle.ground.specs.Lists.{build, stored};
ghost use Rattle.display.specs.Displayed.{displayed_byte};
ghost use Rattle.sight.specs.Ready.{Seeing, Gathered};

use display::seen::row_layers;
use state::panel::Panel;
use state::registers::Display;

// An array and a count, since there is no heap. No ghost field for the count: `store` alone asks how many there are at most.
//
// Up to 80 bytes, and how many.
#[derive(Clone, Copy, Debug, PartialEq, Eq)]
pub(crate) struct Line {
    pub bytes: [u8; 80],
    pub count: usize,
}

// The displayed bytes of a dot row from a column to the panel's right edge.
pub(crate) fn gather(
    panel: Panel,
    display: Display,
    mem: &[u8],
    rom: &[u8],
    row: usize,
    column: usize,
) -> Line
    requires seeing { Seeing panel display mem.now rom.now }
    requires column_lt_columns { column < panel.columns }
    ensures { Gathered result (build (panel.columns - column) (λ j. displayed_byte panel display mem.now rom.now row (column + j))) }
{
    let total = panel.columns - column;
    let mut text = [0u8; 80];
    let mut graphic = [0u8; 80];
    let mut shown = [0u8; 80];
    // `seeing` says that nothing is refused here
    let _ = row_layers(
        panel,
        display,
        mem,
        rom,
        row,
        column,
        &mut text[..total],
        &mut graphic[..total],
        &mut shown[..total],
    );
    Line {
        bytes: shown,
        count: total,
    }
}

// A line stored from an address on.
pub(crate) fn store(mem: &mut [u8], address: u16, line: Line)
    requires { (length mem.old ≡ 65536) × (line.count ≤ 80) }
    ensures { mem.new ≡ stored mem.old address (take line.count line.bytes) }
{
    // the address by hand: a line may run past FFFFH, and no `iter_mut` goes round
    let mut at = address;
    for byte in &line.bytes[..line.count] {
        mem[at as usize] = *byte;
        at = at.wrapping_add(1);
    }
}
