// A frame converted to XBM's order and back.
ghost use Rattle.std.specs.Prelude.{◌≡◌, map, OnErr};
ghost use Rattle.state.specs.Replies.{reply};
ghost use Rattle.display.specs.Frame.{painted};
ghost use Rattle.mirror.specs.Order.{mirrored, convert_of};

use super::table::mirrors;
use state::panel::Panel;
use state::refusal::Refusal;

// Every byte mirrored, in its place.
fn mirror_bytes(frame: &mut [u8])
    ensures { frame.new ≡ map mirrored frame.old }
{
    let table = mirrors();
    for byte in frame.iter_mut() {
        *byte = table[usize::from(*byte)];
    }
}

/// A frame of the panel's size from the frame's order, leftmost dot in the top bit, to XBM's, in the lowest, or back. Invalid, then
/// WrongLength, and the frame is then as it was.
pub fn convert(panel: Panel, frame: &mut [u8]) -> Result<(), Refusal>
    ensures answer { painted (reply result) frame.new ≡ convert_of panel frame.old }
    ensures err { OnErr result (frame.new ≡ frame.old) }
{
    let valid = panel.valid();
    if !valid {
        return Err(Refusal::Invalid);
    }
    let size = panel.frame_size();
    let fits = frame.len() == size;
    if !fits {
        return Err(Refusal::WrongLength);
    }
    mirror_bytes(frame);
    Ok(())
}
