// The frame: every dot row, each into its own stretch.
ghost use Rattle.std.specs.Prelude.{◌≡◌, true, ◌+◌, ◌*◌, ◌^◌, ◌≤◌, length, OnErr};
ghost use Rattle.ground.specs.Lists.{joined};
ghost use Rattle.ground.specs.Packing.{row_bytes};
ghost use Rattle.display.specs.Frame.{painted, paint_of};
ghost use Rattle.display.specs.Flagged.{some_row, paint_flagged_of};
ghost use Rattle.display.specs.OneRow.{paint_one_of};
ghost use Rattle.state.specs.Replies.{reply};
ghost use Rattle.state.specs.State.{valid_panel, valid_display};

use super::door::admit;
use super::font::font;
use super::layers::tables;
use super::scene::Scene;
use state::panel::Panel;
use state::refusal::Refusal;
use state::registers::{Display, Registers};

// kept as parameters: the scene is made of them here, once for both callers
// Dot rows of a valid state from `first` on, one for each flag, each into its own stretch; the bytes of one whose flag is 0 stay.
fn paint_some(
    panel: Panel,
    display: Display,
    mem: &[u8],
    rom: &[u8],
    first: usize,
    flags: &[u8],
    bytes: usize,
    out: &mut [u8],
)
    requires valid { (valid_panel panel ≡ true) × (valid_display display ≡ true) }
    requires lent { (length mem.now ≡ 65536) × (length rom.now ≡ 1024) }
    requires bytes_value { (bytes ≡ row_bytes panel.columns panel.width) × (length out.old ≡ length flags.now * bytes) × (first + length flags.now ≤ 2 ^ 64) }
    ensures { out.new ≡ joined (length flags.now) (some_row panel display mem.now rom.now first bytes flags.now out.old) }
{
    let columns = panel.columns;
    let mut glyphs = [0u8; 2048];
    font(display, mem, rom, &mut glyphs);
    let shades = tables(panel, display);
    let scene = Scene {
        panel,
        display,
        mem,
        font: &glyphs,
        shades: &shades,
    };
    let mut cells = [0u8; 80];
    for (i, flag) in flags.iter().enumerate() {
        if *flag == 0 {
            continue;
        }
        // by its place: behind `chunks_exact_mut` a proof knows nothing of what is written
        let at = i * bytes;
        scene.paint_row(first + i, &mut cells[..columns], &mut out[at..at + bytes]);
    }
}

/// The dot rows of `frame` whose flag is not 0 painted, the others' bytes as they were: memory of 65,536 bytes, ROM of 1,024, a frame of the
/// panel's size, 8·L flags. Invalid, then WrongLength, and the frame is then as it was.
pub fn paint_flagged(
    panel: Panel,
    registers: Registers,
    mem: &[u8],
    rom: &[u8],
    flags: &[u8],
    frame: &mut [u8],
) -> Result<(), Refusal>
    ensures answer { painted (reply result) frame.new ≡ paint_flagged_of panel registers mem.now rom.now flags.now frame.old }
    ensures err { OnErr result (frame.new ≡ frame.old) }
{
    let valid = panel.valid() & registers.valid();
    let bytes = panel.row_size();
    let size = panel.frame_size();
    let rows = (flags.len() % 8 == 0) & (flags.len() / 8 == panel.lines);
    admit(valid, mem, rom, (frame.len() == size) & rows)?;
    paint_some(panel, registers.display, mem, rom, 0, flags, bytes, frame);
    Ok(())
}

/// The whole frame painted: memory of 65,536 bytes, ROM of 1,024, a frame of the panel's size, whatever it holds. Invalid, then WrongLength,
/// and the frame is then as it was.
pub fn paint(
    panel: Panel,
    registers: Registers,
    mem: &[u8],
    rom: &[u8],
    frame: &mut [u8],
) -> Result<(), Refusal>
    ensures answer { painted (reply result) frame.new ≡ paint_of panel registers mem.now rom.now frame.old }
    ensures err { OnErr result (frame.new ≡ frame.old) }
{
    // every row is flagged; a panel has at most 32 lines, or it is refused
    let all = [1u8; 256];
    let rows = 8 * panel.lines.min(32);
    paint_flagged(panel, registers, mem, rom, &all[..rows], frame)
}

/// Dot row `at`, any, painted into `out`, which has just a row's bytes: memory of 65,536 bytes, ROM of 1,024. Invalid, then WrongLength, and
/// `out` is then as it was.
pub fn paint_one(
    panel: Panel,
    display: Display,
    mem: &[u8],
    rom: &[u8],
    at: usize,
    out: &mut [u8],
) -> Result<(), Refusal>
    ensures answer { painted (reply result) out.new ≡ paint_one_of panel display mem.now rom.now at out.old }
    ensures err { OnErr result (out.new ≡ out.old) }
{
    let valid = panel.valid() & display.valid();
    let bytes = panel.row_size();
    admit(valid, mem, rom, out.len() == bytes)?;
    let one = [1u8; 1];
    paint_some(panel, display, mem, rom, at, &one, bytes, out);
    Ok(())
}
