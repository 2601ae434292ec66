// The entries of bytes, then those of values, at a list's start.
ghost use Rattle.std.specs.Prelude.{◌≡◌, length, OnErr};
ghost use Rattle.entries.specs.Listed.{differences_from};
ghost use Rattle.entries.specs.Entered.{entered, entered_all, entered_of};

use super::list::{count_apart, list_apart};

// Three numbers in a list of numbers, here and below: docs/PROMISES.md names `enter`, which takes one.
/// How many entries the bytes have and how many the values, three numbers of a list each.
#[derive(Clone, Copy, Debug, PartialEq, Eq)]
pub struct Entries {
    pub bytes: usize,
    pub values: usize,
}

/// The list has no room for all of these entries.
#[derive(Clone, Copy, Debug, PartialEq, Eq)]
pub struct NoRoom(pub Entries);

// Counted before the list is touched.
fn enter_alike(
    one: &[u8],
    two: &[u8],
    a: &[usize],
    b: &[usize],
    list: &mut [usize],
) -> Result<Entries, NoRoom>
    requires { (length one.now ≡ length two.now) × (length a.now ≡ length b.now) }
    ensures answer { entered_all (entered result) list.new ≡ entered_of list.old (differences_from 0 one.now two.now) (differences_from 0 a.now b.now) }
    ensures err { OnErr result (list.new ≡ list.old) }
{
    let bytes = count_apart(one, two);
    let values = count_apart(a, b);
    let room = list.len() / 3;
    let left = room.saturating_sub(bytes);
    let entries = Entries { bytes, values };
    if (room < bytes) | (left < values) {
        return Err(NoRoom(entries));
    }
    list_apart(one, two, list, 0);
    list_apart(a, b, list, 3 * bytes);
    Ok(entries)
}

/// What differs in two lists of bytes and then in two of values, as far as the shorter of each two goes, ascending at the list's start: place,
/// the first's and the second's. NoRoom with the entries needed, and the list is then as it was.
pub fn enter(
    one: &[u8],
    two: &[u8],
    a: &[usize],
    b: &[usize],
    list: &mut [usize],
) -> Result<Entries, NoRoom>
    ensures answer { entered_all (entered result) list.new ≡ entered_of list.old (differences_from 0 one.now two.now) (differences_from 0 a.now b.now) }
    ensures err { OnErr result (list.new ≡ list.old) }
{
    let m = one.len().min(two.len());
    let n = a.len().min(b.len());
    enter_alike(&one[..m], &two[..m], &a[..n], &b[..n], list)
}
