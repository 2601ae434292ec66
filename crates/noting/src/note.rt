// Stores entered in the list.
ghost use Rattle.std.specs.Prelude.{◌≡◌, ◌+◌, ◌*◌, ◌≤◌, cond, [], ◌∷◌, length};
ghost use Rattle.std.proofs.lemmas.List.Edits.{sets};
ghost use Rattle.noting.specs.Stretch.{store};
ghost use Rattle.noting.specs.Noted.{noted_by, Singles, SingleNoted};
ghost use Rattle.noting.specs.Notes.{noting_of, Stays, Put};

use super::stretch::Stretch;

// No list of structs: C lends it to `t6963c_writers`, four numbers a store.
/// The stores into a stretch, entered in a lent list, four numbers each: `count` entries are needed so far, and those for which there is room
/// stand in the list.
#[derive(Drop)]
pub struct Notes<'a> {
    pub stretch: Stretch,
    pub list: &'a mut [usize],
    pub count: usize,
}

impl Notes<'_> {
    // An entry at a place: four numbers in a row.
    pub(crate) fn put(&mut self, place: usize, pair: usize, address: usize, before: u8, after: u8)
        requires { 4 * place + 4 ≤ length self.old.list.now }
        ensures { Put self.old place (store pair address before after) self.new }
    {
        let at = 4 * place;
        self.list[at..at + 4].copy_from_slice(&[pair, address, before as usize, after as usize]);
    }

    /// One store, if it is in the stretch: counted, and listed where there is room.
    pub fn note(&mut self, pair: usize, address: u16, before: u8, after: u8)
        ensures noted { noting_of self.new ≡ noted_by self.old.stretch.first self.old.stretch.last (store pair address before after) (noting_of self.old) }
        ensures stays { Stays self.old self.new }
    {
        if !self.stretch.holds(address) {
            return;
        }
        let place = self.count;
        self.count = place.saturating_add(1);
        if place < self.list.len() / 4 {
            self.put(place, pair, address as usize, before, after);
        }
    }

    // The one byte that a command stored, or none: `was` is the byte there before, `after` the one there now.
    pub(crate) fn note_one(&mut self, pair: usize, at: u16, was: u8, after: u8, code: u8)
        ensures noted { SingleNoted self.old.stretch.first self.old.stretch.last code (store pair at was after) (noting_of self.old) (noting_of self.new) }
        ensures stays { Stays self.old self.new }
    {
        if stores_one(code) {
            self.note(pair, at, was, after);
        }
    }
}

// By its code, as `usual::tell` takes it: a decoded command is an enum and goes through memory (docs/SPEED.md).
//
// Whether a command stores a byte, by its code, or none; not asked about E0H to EFH, a copy among them.
fn stores_one(code: u8) -> bool
    ensures { Singles code (cond result 1 0) }
{
    (code == 0xc0) | (code == 0xc2) | (code == 0xc4) | (0xf0 <= code)
}
