// A block of data in auto write.
ghost use Rattle.std.specs.Prelude.{◌≡◌, ◌+◌, ◌*◌, ◌%◌, ◌≤◌, length};
ghost use Rattle.ground.specs.Lists.{stored};
ghost use Rattle.effects.specs.Effect.{with_pointer};
ghost use Rattle.turns.specs.Blocked.{bytes_from, AllData, Scanning, Scanned, Begun, Blocked, Blocks};

use codes::pair::Kind;
use state::registers::Bus;

// A log and places of it, here and below, no slice of its pairs: a block's place is what a run asks for, and docs/PROMISES.md names `block`.
// Kinds as bytes: sixteen are or-ed at a time, which gives `Kind::Data as u8`, 0, where all are data.
//
// The kinds of sixteen pairs, or-ed together.
fn kinds(log: &[u8], from: usize) -> u8
    requires { 2 * (from + 16) ≤ length log.now }
    ensures { result ≡ 0 → AllData log.now from 16 }
{
    let mut any: u8 = 0;
    for j in 0..16 {
        any |= log[2 * (from + j)];
    }
    any
}

// The place behind the data from a place on, as far as they are seen sixteen at a time.
fn scan_sixteens(log: &[u8], from: usize, total: usize) -> usize
    requires { (2 * total ≤ length log.now) × (from ≤ total) }
    ensures { Scanning log.now from total result }
{
    let mut i = from;
    // a `while`: sixteen at a time, as many as there are
    while i + 16 <= total {
        if kinds(log, i) != Kind::Data as u8 {
            return i;
        }
        i += 16;
    }
    i
}

// The place of the first pair behind the data from a place on.
fn scan(log: &[u8], from: usize, total: usize) -> usize
    requires { (2 * total ≤ length log.now) × (from ≤ total) }
    ensures { Scanned log.now from total result }
{
    for end in scan_sixteens(log, from, total)..total {
        if log[2 * end] != Kind::Data as u8 {
            return end;
        }
    }
    total
}

// The bytes of n pairs, stored from an address on, none past the memory's end. No test in the loop: it goes many at a time.
fn store_stretch(mem: &mut [u8], at: usize, log: &[u8], from: usize, n: usize)
    requires mem_len { (length mem.old ≡ 65536) × (at + n ≤ 65536) }
    requires n_in_bounds { 2 * (from + n) ≤ length log.now }
    ensures { mem.new ≡ stored mem.old at (bytes_from log.now from n) }
{
    for (j, byte) in mem[at..at + n].iter_mut().enumerate() {
        *byte = log[2 * (from + j) + 1];
    }
}

// The data from a place on, one by one, stored from an address on.
fn store_few(mem: &mut [u8], start: u16, log: &[u8], from: usize, total: usize) -> usize
    requires mem_len { length mem.old ≡ 65536 }
    requires total_in_bounds { (2 * total ≤ length log.now) × (from ≤ total) }
    ensures { Begun mem.old start log.now from total mem.new result }
{
    let mut pointer = start;
    for i in from..total {
        if log[2 * i] != Kind::Data as u8 {
            return i;
        }
        mem[pointer as usize] = log[2 * i + 1];
        pointer = pointer.wrapping_add(1);
    }
    total
}

// The data from a place on, stored from an address on, in stretches that end where the memory does. Not inlined: in a run's loop few pairs
// come here, and with this in it stores between status reads took 4.4 ns a pair for 3.6.
#[inline(never)]
fn store_data(mem: &mut [u8], start: u16, log: &[u8], from: usize, total: usize) -> usize
    requires mem_len { length mem.old ≡ 65536 }
    requires total_in_bounds { (2 * total ≤ length log.now) × (from ≤ total) }
    ensures { Blocked mem.old start log.now from total mem.new result }
{
    let end = scan(log, from, total);
    let mut i = from;
    let mut left = end - from;
    let mut at = start as usize;
    // a `while`: a stretch ends where the memory does, so that no step is fixed
    while 0 < left {
        let n = left.min(65536 - at);
        store_stretch(mem, at, log, i, n);
        i += n;
        left -= n;
        at = 0;
    }
    end
}

/// The data from a place on, as they follow one another, stored from an address on: the place of the first pair behind them; none where less
/// is lent. Where they are more than sixteen, in stretches behind these: a line of text has few, and a search for many would cost it more.
pub fn block(mem: &mut [u8], start: u16, log: &[u8], from: usize, total: usize) -> usize
    ensures { Blocks mem.old start log.now from total mem.new result }
{
    let lent = (mem.len() == 65536) & (total <= log.len() / 2);
    if lent & (from <= total) {
        let near = total.min(from + 16);
        let first = store_few(mem, start, log, from, near);
        if first < near {
            return first;
        }
        let next = start.wrapping_add((first - from) as u16);
        return store_data(mem, next, log, first, total);
    }
    from
}

/// The pointer behind a block of so many data, all else as it was: data pending from before stay.
pub fn passed(bus: Bus, count: usize) -> Bus
    ensures { result ≡ with_pointer bus ((bus.pointer + count) % 65536) }
{
    Bus {
        pointer: bus.pointer.wrapping_add((count % 65536) as u16),
        ..bus
    }
}
