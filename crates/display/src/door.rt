// The tests at the door.
ghost use Rattle.std.specs.Prelude.{◌≡◌, cond, ◌&&◌};
ghost use Rattle.state.specs.Replies.{reply};
ghost use Rattle.display.specs.Frame.{lent_lengths};

use state::refusal::Refusal;

// Two tests as flags: what is valid, a state or a display group, and what else is lent, a frame, a row or lists, differ between the callers.
// Invalid where the state is not valid, then WrongLength where memory, ROM or what else is lent has a wrong length.
pub(crate) fn admit(valid: bool, mem: &[u8], rom: &[u8], fits: bool) -> Result<(), Refusal>
    ensures { (reply result).number ≡ cond valid (cond (lent_lengths mem.now rom.now && fits) 0 2) 1 }
{
    if !valid {
        return Err(Refusal::Invalid);
    }
    if !((mem.len() == 65536) & (rom.len() == 1024) & fits) {
        return Err(Refusal::WrongLength);
    }
    Ok(())
}
