// Data in auto write, as many as follow one another, stored from an address on and noted where they are in the stretch.
ghost use Rattle.std.specs.Prelude.{◌≡◌, ◌+◌, ◌*◌, ◌≤◌, length};
ghost use Rattle.noting.specs.Laid.{Fills, Lays, LaysFrom};
ghost use Rattle.noting.specs.Notes.{noting_of, Stays};

use super::note::Notes;
use codes::pair::Kind;
use turns::block::block;

// Log and places, here and below, as `turns::block::block` takes them, which stores the data that are not listed.
//
// At most n data, all in the stretch and with room for their entries, stored and entered: how many. No test in it but the kind.
fn fill(
    notes: &mut Notes,
    memory: &mut [u8],
    start: u16,
    log: &[u8],
    from: usize,
    n: usize,
) -> usize
    requires mem_len { (length memory.old ≡ 65536) × (start + n ≤ 65536) }
    requires n_in_bounds { (2 * (from + n) ≤ length log.now) × (4 * (notes.old.count + n) ≤ length notes.old.list.now) }
    ensures fills { Fills log.now from n start memory.old memory.new (noting_of notes.old) notes.new.list.now result }
    ensures count { notes.new.count ≡ notes.old.count }
    ensures stays { Stays notes.old notes.new }
{
    let at = start as usize;
    // over numbers: pair and address stand in the entry, so `enumerate` over a part of memory would leave both sums
    for k in 0..n {
        let i = from + k;
        // by number: `Kind::try_from(log[2 * i]) != Ok(Kind::Data)` says no more
        if log[2 * i] != Kind::Data as u8 {
            return k;
        }
        let there = at + k;
        let byte = log[2 * i + 1];
        notes.put(notes.count + k, i, there, memory[there], byte);
        memory[there] = byte;
    }
    n
}

// The data from a place on that lie alike, at most `left`: stored, and noted if they are in the stretch.
fn lay_alike(
    notes: &mut Notes,
    memory: &mut [u8],
    log: &[u8],
    from: usize,
    left: usize,
    at: u16,
) -> usize
    requires mem_len { length memory.old ≡ 65536 }
    requires left_in_bounds { 2 * (from + left) ≤ length log.now }
    ensures lays { Lays notes.old.stretch.first notes.old.stretch.last log.now from left at memory.old memory.new (noting_of notes.old) (noting_of notes.new) result }
    ensures stays { Stays notes.old notes.new }
{
    let inside = notes.stretch.holds(at);
    let near = left.min(notes.stretch.span(at));
    let room = notes.list.len() / 4;
    if inside & (notes.count < room) {
        let n = fill(notes, memory, at, log, from, near.min(room - notes.count));
        notes.count += n;
        return n;
    }
    let n = block(memory, at, log, from, from + near) - from;
    if inside {
        notes.count = notes.count.saturating_add(n);
    }
    n
}

/// The data from a place on, up to `total`, as far as they lie alike: how many; none where less is lent.
pub fn lay(
    notes: &mut Notes,
    memory: &mut [u8],
    log: &[u8],
    from: usize,
    total: usize,
    at: u16,
) -> usize
    ensures lays { LaysFrom notes.old.stretch.first notes.old.stretch.last log.now from total at memory.old memory.new (noting_of notes.old) (noting_of notes.new) result }
    ensures stays { Stays notes.old notes.new }
{
    let lent = (memory.len() == 65536) & (total <= log.len() / 2);
    if lent & (from <= total) {
        return lay_alike(notes, memory, log, from, total - from, at);
    }
    0
}
