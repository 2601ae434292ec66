// The bytes that a pair stores: held before it, noted behind it.
ghost use Rattle.std.specs.Prelude.{◌≡◌, ◌≤◌, length};
ghost use Rattle.noting.specs.Noted.{noted_each};
ghost use Rattle.noting.specs.Notes.{noting_of, Stays};
ghost use Rattle.writers.specs.Ready.{Held, stores_by};

use ground::stretches::read_round;
use noting::note::Notes;

// An array of the most there can be, since there is no heap; no slice of the memory, which the pair is about to change and which goes round.
//
// The bytes from an address on, before a pair stores there.
pub(crate) fn hold(memory: &[u8], at: u16, n: usize) -> [u8; 80]
    requires { (length memory.now ≡ 65536) × (n ≤ 80) }
    ensures held { Held memory.now at n result }
    ensures value { 80 ≡ length result }
{
    let mut bytes = [0u8; 80];
    read_round(8, memory, at, &mut bytes[..n]);
    bytes
}

// All that a pair stored, byte after byte.
pub(crate) fn note_all(notes: &mut Notes, pair: usize, at: u16, before: &[u8], memory: &[u8])
    requires { (length memory.now ≡ 65536) × (length before.now ≤ 80) }
    ensures noted { noting_of notes.new ≡ noted_each notes.old.stretch.first notes.old.stretch.last (stores_by pair at before.now memory.now) (length before.now) (noting_of notes.old) }
    ensures stays { Stays notes.old notes.new }
{
    for (j, was) in before.iter().enumerate() {
        let there = at.wrapping_add(j as u16);
        notes.note(pair, there, *was, memory[there as usize]);
    }
}
