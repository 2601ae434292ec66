// One pair of a run by an access.
ghost use Rattle.std.specs.Prelude.{◌≡◌};
ghost use Rattle.single.specs.Outcome.{entered_of};
ghost use Rattle.controller.specs.Run.{turn_of};
ghost use Rattle.controller.specs.Ready.{standing, turned, turned_all, turned_of};

use single::access::accessed;
use state::panel::Panel;
use state::refusal::Refusal;
use state::registers::Registers;
use turns::taken::Taken;

// Parameters one by one, and `kind` a number beside `byte`, as docs/PROMISES.md has `turn` and `access`. Registers and `given` by value: a local
// that is lent would stay in memory for the whole loop. No `get_mut(given)`: behind it a proof knows no byte of the buffer.
//
// One pair of a run. What a read gives goes into the buffer.
pub(crate) fn turn(
    panel: Panel,
    registers: Registers,
    memory: &mut [u8],
    rom: &[u8],
    answers: &mut [u8],
    given: usize,
    kind: u8,
    byte: u8,
) -> Result<Taken, Refusal>
    ensures { turned_all (turned registers given result) memory.new answers.new ≡ turned_of (standing registers memory.old answers.old given) (turn_of (standing registers memory.old answers.old given) (entered_of panel registers memory.old rom.now (record { kind = kind; byte = byte }))) }
{
    let done = accessed(panel, registers, memory, rom, kind, byte);
    let registers = done.registers;
    let Some(answer) = done.answer? else {
        return Ok(Taken { registers, given });
    };
    if answers.len() <= given {
        return Err(Refusal::NoRoomForAnswer);
    }
    answers[given] = answer;
    Ok(Taken {
        registers,
        given: given + 1,
    })
}
