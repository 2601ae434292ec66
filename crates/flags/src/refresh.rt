// The flagged rows painted, and the flags cleared.
ghost use Rattle.std.specs.Prelude.{◌≡◌, OnErr};
ghost use Rattle.state.specs.Replies.{reply};
ghost use Rattle.flags.specs.Follow.{refreshed, refresh_of};

use display::frame::paint_flagged;
use ground::stretches::clear;
use state::panel::Panel;
use state::refusal::Refusal;
use state::registers::Registers;

// Parameters one by one: docs/PROMISES.md names this, and each is lent by whoever asks.
/// The rows of `frame` whose flag is not 0 painted, and every flag 0: memory of 65,536 bytes, ROM of 1,024, a frame of the panel's size, 8·L
/// flags. Invalid, then WrongLength, and a refusal leaves frame and flags as they were.
pub fn refresh(
    panel: Panel,
    registers: Registers,
    mem: &[u8],
    rom: &[u8],
    frame: &mut [u8],
    flags: &mut [u8],
) -> Result<(), Refusal>
    ensures answer { refreshed (reply result) frame.new flags.new ≡ refresh_of panel registers mem.now rom.now frame.old flags.old }
    ensures err { OnErr result ((frame.new ≡ frame.old) × (flags.new ≡ flags.old)) }
{
    paint_flagged(panel, registers, mem, rom, flags, frame)?;
    clear(flags);
    Ok(())
}
