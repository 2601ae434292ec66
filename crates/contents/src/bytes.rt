// Bytes and words of a book.
ghost use Rattle.std.specs.Prelude.{◌≡◌, get_or};
ghost use Rattle.contents.specs.Contents.{word_at};

use ground::bytes::word;

// A place beside the book, here and below: it is what is asked about, and docs/PROMISES.md names both.
/// A byte of the book, 0 behind its end.
pub fn byte_at(book: &[u8], at: usize) -> u8
    ensures { result ≡ get_or book.now at 0 }
{
    book.get(at).copied().unwrap_or(0)
}

/// 16 bits of the book, low byte first; a byte behind its end counts as 0.
pub fn word_at(book: &[u8], at: usize) -> u16
    ensures { result ≡ word_at book.now at }
{
    word(byte_at(book, at), byte_at(book, at.saturating_add(1)))
}
