// One pair, and what it stored noted.
ghost use Rattle.std.specs.Prelude.{◌≡◌};
ghost use Rattle.effects.specs.Machine.{machine};
ghost use Rattle.controller.specs.Access.{step_of};
ghost use Rattle.controller.specs.Ready.{Runs};
ghost use Rattle.noting.specs.Notes.{noting_of, Stays};
ghost use Rattle.writers.specs.Ready.{behind, behind_by};

use super::held::{hold, note_all};
use noting::note::Notes;
use single::access::accessed;
use state::panel::Panel;
use state::registers::Registers;
use stores::stores::stores;

// Registers by value, since a local that is lent would stay in memory for the whole loop. `kind` and `byte` side by side, as `access` takes them.
//
// Any pair by a whole access; what it stored is noted if it is accepted.
pub(crate) fn through(
    notes: &mut Notes,
    panel: Panel,
    registers: Registers,
    memory: &mut [u8],
    rom: &[u8],
    kind: u8,
    byte: u8,
    pair: usize,
) -> Registers
    requires { Runs panel registers memory.old rom.now }
    ensures behind { behind (machine result memory.new) (noting_of notes.new) ≡ behind_by panel notes.old.stretch.first notes.old.stretch.last pair (machine registers memory.old) (record { kind = kind; byte = byte }) (noting_of notes.old) (step_of panel rom.now (machine registers memory.old) (record { kind = kind; byte = byte })) }
    ensures stays { Stays notes.old notes.new }
{
    let at = registers.bus.pointer;
    let all = stores(panel, registers, kind, byte);
    let before = hold(memory, at, all);
    let done = accessed(panel, registers, memory, rom, kind, byte);
    match done.answer {
        Ok(_) => {
            note_all(notes, pair, at, &before[..all], memory);
            done.registers
        }
        Err(_) => done.registers,
    }
}
