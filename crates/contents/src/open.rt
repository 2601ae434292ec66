// The contents of a book, read and judged.
ghost use Rattle.std.specs.Prelude.{◌≡◌, ◌≤◌, length};
ghost use Rattle.contents.specs.Contents.{is_two, first_body, entries_at, entries_from, contents_of};
ghost use Rattle.contents.specs.Spans.{spans_of};
ghost use Rattle.contents.specs.Replies.{opened, Opens};

use super::bytes::byte_at;
use super::entry::{count_at, entries_at, entry_at, entry_size, first_body, wrong_entry};
use super::spans::{Span, Spans};
use state::refusal::{Refusal, Refused};

// The form as a `bool`, as `entry_at` and the functions beside it take it.
// Every entry of n, each body to begin where the last one ended, each key above the last.
fn entries(two: bool, book: &[u8], n: u8) -> Result<Spans, Refused>
    requires { (first_body two n ≤ length book.now) × (length book.now ≤ 32768) × (n ≤ 64) }
    ensures value { opened result ≡ spans_of two (entries_from two book.now n (entries_at two) (first_body two n) 0) }
    ensures contents { Opens two (entries_from two book.now n (entries_at two) (first_body two n) 0) result }
{
    let mut spans = [Span::NONE; 64];
    let mut at = entries_at(two);
    let mut start = first_body(two, n);
    let mut least: usize = 0;
    let count = n as usize;
    for (i, span) in spans[..count].iter_mut().enumerate() {
        let entry = entry_at(two, book, at, least);
        if wrong_entry(entry, book.len(), start, least, count - i - 1) {
            return Err(Refused {
                refusal: Refusal::WrongBook,
                place: at,
            });
        }
        let end = start + entry.size as usize;
        *span = Span {
            key: entry.key,
            start,
            end,
        };
        start = end;
        at += entry_size(two);
        least = entry.key as usize + 1;
    }
    Ok(Spans { two, count, spans })
}

/// The screens of a book. Its form is told by its first byte, then its length and n are judged, then its entries:
/// `WrongBook` with the byte of the first wrong entry, else with place 0.
pub fn open(book: &[u8]) -> Result<Spans, Refused>
    ensures value { opened result ≡ spans_of (is_two book.now) (contents_of book.now) }
    ensures contents { Opens (is_two book.now) (contents_of book.now) result }
{
    // the definition's `is_two`, here as in book and layout: a function would say this one test by another name
    let two = byte_at(book, 0) == 0;
    let n = byte_at(book, count_at(two));
    let size = book.len();
    let opens = (1 <= size) & (size <= 32768) & (1 <= n) & (n <= 64) & (first_body(two, n) <= size);
    if !opens {
        return Err(Refusal::WrongBook.into());
    }
    entries(two, book, n)
}
