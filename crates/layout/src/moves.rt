// A book moved from form one up to form two, or down again.
ghost use Rattle.std.specs.Prelude.{◌≡◌, true, ◌≤◌, length, OnErr};
ghost use Rattle.contents.specs.Replies.{bodies};
ghost use Rattle.layout.specs.Laid.{laid_out, screens_of};
ghost use Rattle.layout.specs.Ready.{laid_size, Spanned};
ghost use Rattle.layout.specs.Moved.{moved_all, fitted, fitted_up, numbered_from, up_of, down_of};
ghost use Rattle.layout.specs.Replies.{moved};

use super::lay::{laid_size, lay};
use super::reading::read_bodies;
use contents::bytes::byte_at;
use contents::open::open;
use contents::spans::Span;
use state::panel::Panel;
use state::refusal::{Refusal, Refused};

// The form as a `bool`, as `lay` takes it.
// The book laid out where the output has room for it, else `NoRoomForStream` with the bytes needed.
pub(crate) fn fit(two: bool, spans: &[Span], book: &[u8], out: &mut [u8]) -> Result<usize, Refused>
    requires { (Spanned (bodies spans.now) (length book.now)) × (laid_size two (bodies spans.now) ≤ 32768) }
    ensures value { moved_all (moved result) out.new ≡ fitted (laid_out two (screens_of book.now (bodies spans.now))) out.old }
    ensures err { OnErr result (out.new ≡ out.old) }
{
    let size = laid_size(two, spans);
    if size <= out.len() {
        lay(two, spans, book, out);
        return Ok(size);
    }
    Err(Refused {
        refusal: Refusal::NoRoomForStream,
        place: size,
    })
}

// Whether the screens' keys are 0 to n-1.
fn numbered(spans: &[Span]) -> bool
    ensures { result ≡ numbered_from 0 (bodies spans.now) }
{
    spans
        .iter()
        .enumerate()
        .all(|(i, span)| span.key as usize == i)
}

// The most bytes of a book.
const LONGEST_BOOK: usize = 32768;

// The book in form two, where it is short enough.
fn fit_up(spans: &[Span], book: &[u8], out: &mut [u8]) -> Result<usize, Refused>
    requires { Spanned (bodies spans.now) (length book.now) }
    ensures value { moved_all (moved result) out.new ≡ fitted_up (laid_out true (screens_of book.now (bodies spans.now))) out.old }
    ensures err { OnErr result (out.new ≡ out.old) }
{
    let size = laid_size(true, spans);
    if LONGEST_BOOK < size {
        return Err(Refused {
            refusal: Refusal::TooLarge,
            place: size,
        });
    }
    fit(true, spans, book, out)
}

/// From form one to form two: the screens' numbers become their identities. Every body is read on the panel, and none may use AND.
/// The book of as many bytes as are answered stands at the output's start; where it is refused the output is as it was.
/// `Invalid`; `WrongBook` for form two with place 0, or as of `open`; `WrongOperation` with its byte in the book; `UsesAnd` with the
/// first screen that does; `TooLarge` or `NoRoomForStream` with the bytes needed.
pub fn move_up(panel: Panel, book: &[u8], out: &mut [u8]) -> Result<usize, Refused>
    ensures value { moved_all (moved result) out.new ≡ up_of panel book.now out.old }
    ensures err { OnErr result (out.new ≡ out.old) }
{
    if !panel.valid() {
        return Err(Refusal::Invalid.into());
    }
    // the definition's `is_two`, here and below: a function would say this one test by another name
    if byte_at(book, 0) == 0 {
        return Err(Refusal::WrongBook.into());
    }
    let opened = open(book)?;
    let spans = opened.all();
    read_bodies(panel, book, spans)?;
    fit_up(spans, book, out)
}

/// From form two to form one, where the identities are 0 to n-1. The book of as many bytes as are answered stands at the output's start;
/// where it is refused the output is as it was.
/// `WrongBook` for form one with place 0, or as of `open`; `OtherIdentities`; `NoRoomForStream` with the bytes needed.
pub fn move_down(book: &[u8], out: &mut [u8]) -> Result<usize, Refused>
    ensures value { moved_all (moved result) out.new ≡ down_of book.now out.old }
    ensures err { OnErr result (out.new ≡ out.old) }
{
    if byte_at(book, 0) != 0 {
        return Err(Refusal::WrongBook.into());
    }
    let opened = open(book)?;
    let spans = opened.all();
    if !numbered(spans) {
        return Err(Refusal::OtherIdentities.into());
    }
    fit(false, spans, book, out)
}
