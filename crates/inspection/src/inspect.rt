// A recorded log inspected.
ghost use Rattle.std.specs.Prelude.{◌≡◌, true, ◌*◌, ◌/◌, ◌%◌, length};
ghost use Rattle.controller.specs.Run.{pairs_of, run_from};
ghost use Rattle.controller.specs.Ready.{Runs};
ghost use Rattle.inspection.specs.Look.{watch_step};
ghost use Rattle.inspection.specs.Inspected.{inspected_all, inspected_of, begun_watch, inspect_of};
ghost use Rattle.inspection.specs.Named.{inspected};

use super::look::{Findings, Looked};
use single::step;
use state::panel::Panel;
use state::refusal::{Refusal, Refused};
use state::registers::Registers;

// What is lent comes one by one, here and below: docs/PROMISES.md names `inspect`, and `follow` is what it does past its door.
// All pairs of a log, on a machine that is known to be valid.
fn follow(
    registers: &mut Registers,
    panel: Panel,
    memory: &mut [u8],
    rom: &[u8],
    log: &[u8],
    recorded: &[u8],
) -> Result<Findings, Refused>
    requires runs { Runs panel registers.old memory.old rom.now }
    requires log_len { length log.now % 2 ≡ 0 }
    ensures { inspected_all (inspected result registers.new) memory.new ≡ inspected_of recorded.now (run_from (watch_step panel rom.now recorded.now) 0 (pairs_of log.now) (begun_watch registers.old memory.old)) }
{
    let mut seen = Looked::default();
    let mut given: usize = 0;
    let (pairs, _) = log.as_chunks::<2>();
    for (i, pair) in pairs.iter().enumerate() {
        let [kind, byte] = *pair;
        let auto = registers.bus.auto;
        let own = step::access(registers, panel, memory, rom, kind, byte).map_err(
            |refusal| Refused { refusal, place: i },
        )?;
        let answer = recorded.get(given).copied().unwrap_or(0);
        seen.look(auto, kind, answer, i);
        if let Some(byte) = own {
            seen.compare(answer, byte, given);
            given += 1;
        }
    }
    if recorded.len() == given {
        return Ok(seen.named);
    }
    Err(Refusal::AnswersUneven.into())
}

// The two tests at the head stand here: a function for all entries would take them as flags.
/// A log of pairs, two bytes each, and the bytes answered beside it. Registers and memory (65,536) end as the run leaves them that stops at the
/// first refused pair, on a refusal too. Refusals: `Invalid`, `WrongLength`, `OddLength` with the pairs of the log; then that of a pair, with the
/// pair; then `AnswersUneven` where recorded answers and reads are not equally many.
#[tactic(auto, unfolding(crate::specs::Inspected::inspect_of))]
pub fn inspect(
    registers: &mut Registers,
    panel: Panel,
    memory: &mut [u8],
    rom: &[u8],
    log: &[u8],
    recorded: &[u8],
) -> Result<Findings, Refused>
    ensures { inspected_all (inspected result registers.new) memory.new ≡ inspect_of panel registers.old memory.old rom.now log.now recorded.now }
{
    if !(panel.valid() & registers.valid()) {
        return Err(Refusal::Invalid.into());
    }
    if !((memory.len() == 65536) & (rom.len() == 1024)) {
        return Err(Refusal::WrongLength.into());
    }
    if log.len() % 2 != 0 {
        return Err(Refused {
            refusal: Refusal::OddLength,
            place: log.len() / 2,
        });
    }
    follow(registers, panel, memory, rom, log, recorded)
}
