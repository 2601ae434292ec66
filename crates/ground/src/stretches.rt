// Bytes of one list laid into another.
ghost use Rattle.std.specs.Prelude.{◌≡◌, length};
ghost use Rattle.ground.specs.Lists.{build, given_to, read_round, looked_up};

use super::bytes::{lesser, low};

// a function, though it is `fill(0)`: docs/PROMISES.md names it
/// Every byte 0.
pub fn clear(list: &mut [u8])
    ensures { list.new ≡ build (length list.old) (λ j. 0) }
{
    list.fill(0);
}

/// The front of a list over that of another, as far as both go.
pub fn give(from: &[u8], to: &mut [u8])
    ensures { to.new ≡ given_to from.now to.old }
{
    let both = lesser(from.len(), to.len());
    // not `copy_from_slice`: that becomes `memmove`, which a library for C then wants from outside (docs/C.md)
    for (j, byte) in to[..both].iter_mut().enumerate() {
        *byte = from[j];
    }
}

/// The low w bits of a memory's bytes from an address on, round, as many as are asked for; a memory of another length is not read.
pub fn read_round(width: usize, mem: &[u8], start: u16, out: &mut [u8])
    ensures { out.new ≡ read_round width mem.now start out.old }
{
    if mem.len() == 65536 {
        // the address by hand: behind `iter_mut().zip(..)` a proof knows nothing of what is written
        let mut at = start;
        for byte in out.iter_mut() {
            *byte = low(width, mem[at as usize]);
            at = at.wrapping_add(1);
        }
    }
}

/// Codes, each replaced by the low w bits of its row v in a table that has eight rows of each code; another table, or no such row, leaves them.
pub fn look_up(width: usize, table: &[u8], v: usize, codes: &mut [u8])
    ensures { codes.new ≡ looked_up width table.now v codes.old }
{
    if (table.len() == 2048) & (v < 8) {
        for code in codes.iter_mut() {
            *code = low(width, table[8 * *code as usize + v]);
        }
    }
}
