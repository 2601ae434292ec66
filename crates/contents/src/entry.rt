// An entry of the contents, in either form.
ghost use Rattle.std.specs.Prelude.{◌≡◌, false, ◌+◌, ◌≤◌, length};
ghost use Rattle.contents.specs.Contents.{count_at, entries_at, entry_size, first_body, entry_at, wrong_entry};

use super::bytes::word_at;

/// What a screen is asked for by, and where its body begins and how long it is.
#[derive(Clone, Copy, Debug, PartialEq, Eq)]
pub struct Entry {
    pub key: u16,
    pub offset: u16,
    pub size: u16,
}

// The form is a `bool`, here and below: docs/PROMISES.md names these functions, which take it so.
/// The byte that holds n.
pub fn count_at(two: bool) -> usize
    ensures { result ≡ count_at two }
{
    if two { 1 } else { 0 }
}

/// The byte of the first entry.
pub fn entries_at(two: bool) -> usize
    ensures { result ≡ entries_at two }
{
    if two { 2 } else { 1 }
}

/// The bytes of an entry.
pub fn entry_size(two: bool) -> usize
    ensures { result ≡ entry_size two }
{
    if two { 6 } else { 4 }
}

/// The byte of the first body, of n screens.
pub fn first_body(two: bool, n: u8) -> usize
    ensures { result ≡ first_body two n }
{
    entries_at(two) + entry_size(two) * n as usize
}

// The entry at a byte. In form one its key is the least that is left.
pub(crate) fn entry_at(two: bool, book: &[u8], at: usize, least: usize) -> Entry
    requires { (at + entry_size two ≤ length book.now) × (two ≡ false → least ≤ 64) }
    ensures { result ≡ entry_at two book.now at least }
{
    if two {
        Entry {
            key: word_at(book, at),
            offset: word_at(book, at + 2),
            size: word_at(book, at + 4),
        }
    } else {
        Entry {
            key: least as u16,
            offset: word_at(book, at),
            size: word_at(book, at + 2),
        }
    }
}

// Whether an entry is wrong, its body to begin at `start`, its key to be `least` or more, and `left` entries to follow.
pub(crate) fn wrong_entry(
    entry: Entry,
    most: usize,
    start: usize,
    least: usize,
    left: usize,
) -> bool
    requires { start ≤ 32768 }
    ensures { result ≡ wrong_entry entry most start least left }
{
    let end = start + entry.size as usize;
    ((entry.key as usize) < least)
        | (entry.offset as usize != start)
        | (most < end)
        | ((left == 0) & (end < most))
}
