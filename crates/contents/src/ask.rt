// A screen's body asked for.
ghost use Rattle.std.specs.Prelude.{◌≡◌, ◌≤◌, ◌==◌, find, IfOk, IfSome};
ghost use Rattle.contents.specs.Contents.{contents_of};
ghost use Rattle.contents.specs.Asked.{asked_of};
ghost use Rattle.contents.specs.Numbers.{contents_number, contents_place, asked_number, asked_place};
ghost use Rattle.contents.specs.Replies.{asked};

use super::open::open;
use super::spans::Span;
use state::refusal::{Refusal, Refused};

// The screen of a key.
fn sought(spans: &[Span], key: usize) -> Option<Span>
    ensures value { result ≡ find (λ s. s.key == key) spans.now }
    ensures key { IfSome result (λ s. s.key ≡ key) }
{
    spans.iter().copied().find(|span| span.key as usize == key)
}

/// The body of the screen that `key` asks for: its number in form one, its identity in form two. All entries are judged,
/// whichever is asked for: `WrongBook` with the place of the first wrong entry, then `NoSuchScreen` with place 0.
pub fn ask(book: &[u8], key: usize) -> Result<Span, Refused>
    ensures value { asked result ≡ asked_of book.now key }
    ensures result_value { (asked_number (asked result) ≡ contents_number (contents_of book.now) key) × (asked_place (asked result) ≡ contents_place (contents_of book.now)) }
    ensures key { IfOk result (λ s. s.key ≡ key) }
{
    let spans = open(book)?;
    sought(spans.all(), key).ok_or(Refused::from(Refusal::NoSuchScreen))
}
