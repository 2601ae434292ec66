// A torn book saved.
ghost use Rattle.std.specs.Prelude.{◌≡◌, ◌-◌, length, take, OnErr};
ghost use Rattle.std.proofs.lemmas.List.Edits.{sets};
ghost use Rattle.ground.specs.Lists.{zeros};
ghost use Rattle.contents.specs.Replies.{bodies};
ghost use Rattle.layout.specs.Saved.{good_until, cut_all, kept_bytes, dropped_bytes, saved_all, salvage_of};
ghost use Rattle.layout.specs.Ready.{Spanned};
ghost use Rattle.layout.specs.Replies.{kept, dropped, salvaged};

use super::moves::fit;
use super::saved::{Salvaged, Saved};
use book::operation::read;
use contents::open::open;
use contents::spans::Span;
use state::panel::Panel;
use state::refusal::{Refusal, Refused};

// Two arrays: the spans go on as a slice to what lays any book out, the reports go to the caller.
// The screens cut behind their good operations, and what is kept and dropped of each.
#[derive(Clone, Copy, Debug, PartialEq, Eq)]
struct Torn {
    spans: [Span; 64],
    screens: [Saved; 64],
}

// Start and end and no `Span`, of which the walk would read these two alone, each by a longer name.
// The byte behind a body's good operations: everything behind the first bad one is dropped, read or not.
fn good_end(panel: Panel, book: &[u8], start: usize, end: usize) -> usize
    ensures { result ≡ good_until (end - start) panel book.now start end }
{
    let mut at = start;
    // no iterator of operations: it would yield Results, tested in each round as here, and save the round's last line alone
    while let Ok(Some(standing)) = read(panel, book, at, end) {
        at = standing.next;
    }
    at
}

// Every screen's span with the end of its good operations, and the bytes on either side of it.
fn cut(panel: Panel, book: &[u8], spans: &[Span]) -> Torn
    requires { Spanned (bodies spans.now) (length book.now) }
    ensures spans { bodies (take (length spans.now) result.spans) ≡ cut_all panel book.now (bodies spans.now) }
    ensures kept { kept result.screens ≡ sets (zeros 64) 0 (kept_bytes panel book.now (bodies spans.now)) }
    ensures dropped { dropped result.screens ≡ sets (zeros 64) 0 (dropped_bytes panel book.now (bodies spans.now)) }
{
    let mut cut = [Span::NONE; 64];
    let mut screens = [Saved {
        kept: 0,
        dropped: 0,
    }; 64];
    // by index: behind a `zip` of two `iter_mut` a proof knows nothing of what is written
    for (i, span) in spans.iter().enumerate() {
        let good = good_end(panel, book, span.start, span.end);
        cut[i] = Span { end: good, ..*span };
        screens[i] = Saved {
            kept: good - span.start,
            dropped: span.end - good,
        };
    }
    Torn {
        spans: cut,
        screens,
    }
}

/// A book of either form with sound contents, laid out again with the good operations of each body, at the output's start.
/// `Invalid`; `WrongBook` as of `open`; `NoRoomForStream` with the bytes needed: then the output is as it was.
pub fn salvage(panel: Panel, book: &[u8], out: &mut [u8]) -> Result<Salvaged, Refused>
    ensures value { saved_all (salvaged result) out.new ≡ salvage_of panel book.now out.old }
    ensures err { OnErr result (out.new ≡ out.old) }
{
    if !panel.valid() {
        return Err(Refusal::Invalid.into());
    }
    let opened = open(book)?;
    let spans = opened.all();
    let torn = cut(panel, book, spans);
    let good = &torn.spans[..spans.len()];
    let size = fit(opened.two, good, book, out)?;
    Ok(Salvaged {
        size,
        count: spans.len(),
        screens: torn.screens,
    })
}
