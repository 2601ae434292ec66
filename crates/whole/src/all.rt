// All of a log by the stopping run, whatever its length.
ghost use Rattle.std.specs.Prelude.{◌≡◌};
ghost use Rattle.whole.specs.Whole.{ran_whole, whole_of};
ghost use Rattle.whole.specs.Played.{without_given, played_part};

use controller::run::{Ran, run_stopping};
use playback::play::{begin, play};
use state::panel::Panel;
use state::registers::Registers;

// Bytes of a part: 4,096 pairs, with room for an answer to each.
const PART: usize = 8192;

// Panel, memory, ROM and log one by one, here and below: docs/PROMISES.md names `run_all`, and `play` takes them so.
// The next part, its answers dropped.
#[tactic(auto, unfolding(crate::specs::Played::played_part, ground::specs::Lists::zeros))]
fn play_part(panel: Panel, past: Ran, mem: &mut [u8], rom: &[u8], part: &[u8]) -> Ran
    ensures { ran_whole result mem.new ≡ without_given (played_part panel past mem.old rom.now part.now) }
{
    let mut answers = [0u8; 4096];
    let played = play(panel, past, mem, rom, part, &mut answers);
    played.ran
}

/// A log of any length from a state, by the stopping run, its answers dropped: memory of 65,536 bytes, ROM of 1,024.
pub fn run_all(panel: Panel, registers: Registers, mem: &mut [u8], rom: &[u8], log: &[u8]) -> Ran
    ensures { ran_whole result mem.new ≡ whole_of panel registers mem.old rom.now log.now }
{
    if log.len() % 2 != 0 {
        let mut none = [0u8; 0];
        return run_stopping(panel, registers, mem, rom, log, 0, &mut none);
    }
    // the first part has no pair, so that Invalid and WrongLength are found where the log has none either
    let mut ran = play_part(panel, begin(registers), mem, rom, &log[..0]);
    for part in log.chunks(PART) {
        ran = play_part(panel, ran, mem, rom, part);
    }
    ran
}
