// A command told to the bus and the memory, and what it stored noted.
ghost use Rattle.std.specs.Prelude.{◌≡◌, None};
ghost use Rattle.noting.specs.Notes.{noting_of, Stays};
ghost use Rattle.noting.specs.Said.{said, Says};

use super::note::Notes;
use effects::store::byte_there;
use state::registers::Bus;
use usual::tell::tell;

// `quiet` and a code by number, as docs/PROMISES.md has `tell` and this, which hands them on.
/// A command done, and its store noted: the bus then; or left, which gives none. `quiet` says that this is a command and auto is off; where it is
/// not, all is left, and so are E0H to EFH, since a copy stores many bytes.
pub fn say(
    notes: &mut Notes,
    bus: Bus,
    memory: &mut [u8],
    quiet: bool,
    code: u8,
    pair: usize,
) -> Option<Bus>
    ensures says { Says notes.old.stretch.first notes.old.stretch.last pair bus memory.old quiet code (noting_of notes.old) (said bus result notes.new.count) memory.new notes.new.list.now }
    ensures stays { Stays notes.old notes.new }
    ensures left { (result ≡ None) → noting_of notes.new ≡ noting_of notes.old }
{
    let was = byte_there(memory, bus.pointer);
    let told = tell(bus, memory, quiet & (code / 16 != 14), code);
    if !told.done {
        return None;
    }
    let after = byte_there(memory, bus.pointer);
    notes.note_one(pair, bus.pointer, was, after, code);
    Some(told.bus)
}
