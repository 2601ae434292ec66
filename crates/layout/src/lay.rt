// A book laid out: one function for every new book.
ghost use Rattle.std.specs.Prelude.{◌≡◌, length};
ghost use Rattle.contents.specs.Contents.{first_body};
ghost use Rattle.contents.specs.Replies.{bodies};
ghost use Rattle.layout.specs.Laid.{bodies_laid, laid_out, screens_of};
ghost use Rattle.layout.specs.Puts.{Puts, EntriesFit, BodiesFit};
ghost use Rattle.layout.specs.Ready.{BytesPut, entries_for, laid_size, Spanned, Layable};

use super::put::Output;
use contents::entry::first_body;
use contents::spans::Span;

// The form as a `bool`, here and below: contents' `entry_size` and its like take it so, as docs/PROMISES.md has them.
// The bytes of a book with these screens.
pub(crate) fn laid_size(two: bool, spans: &[Span]) -> usize
    requires { Spanned (bodies spans.now) 32768 }
    ensures { result ≡ laid_size two (bodies spans.now) }
{
    let mut size = first_body(two, spans.len() as u8);
    // here and below no method of `Span`: it would be a public function of contents for one subtraction
    for span in spans {
        size += span.end - span.start;
    }
    size
}

// An entry for each screen, its body to begin where the last one ended.
fn put_entries(output: &mut Output, two: bool, spans: &[Span])
    requires { EntriesFit two (bodies spans.now) output.old }
    ensures { Puts output.old (entries_for two (bodies spans.now) (first_body two (length (bodies spans.now)))) output.new }
{
    let mut start = first_body(two, spans.len() as u8);
    for span in spans {
        let size = span.end - span.start;
        output.put_entry(two, span.key, start, size);
        start += size;
    }
}

// The bodies, one after the other.
fn put_bodies(output: &mut Output, spans: &[Span], book: &[u8])
    requires { BodiesFit (bodies spans.now) (length book.now) output.old }
    ensures { Puts output.old (bodies_laid (screens_of book.now (bodies spans.now))) output.new }
{
    for span in spans {
        output.put(&book[span.start..span.end]);
    }
}

// The screens of a book as a book of either form at the output's start.
pub(crate) fn lay(two: bool, spans: &[Span], book: &[u8], out: &mut [u8])
    requires { Layable two (bodies spans.now) (length book.now) (length out.old) }
    ensures { BytesPut out.old 0 (laid_out two (screens_of book.now (bodies spans.now))) out.new }
{
    let mut output = Output { out, at: 0 };
    output.put_head(two, spans.len());
    put_entries(&mut output, two, spans);
    put_bodies(&mut output, spans, book);
}
