// The bodies of a book read on a panel.
ghost use Rattle.std.specs.Prelude.{◌≡◌, ◌-◌};
ghost use Rattle.book.specs.Screen.{operations_from};
ghost use Rattle.contents.specs.Replies.{bodies};
ghost use Rattle.layout.specs.BodyRead.{reads_one};
ghost use Rattle.layout.specs.BodiesRead.{reads};
ghost use Rattle.layout.specs.Uses.{body_read, bodies_read};
ghost use Rattle.layout.specs.Ready.{placed_and};

use book::operation::{Placed, read};
use contents::spans::Span;
use state::panel::Panel;
use state::refusal::{Refusal, Refused};
use state::registers::Combination;

fn is_and(placed: Placed) -> bool
    ensures { result ≡ placed_and placed }
{
    matches!(placed, Placed::Combine(Combination::And))
}

// Start and end and no `Span`, of which the walk would read these two alone, each by a longer name.
// Whether a body uses AND, or `WrongOperation` with the byte of its first faulty operation.
fn read_body(panel: Panel, book: &[u8], start: usize, end: usize) -> Result<bool, Refused>
    ensures { result ≡ reads_one (body_read (operations_from (end - start) panel book.now start end)) }
{
    let mut at = start;
    let mut uses = false;
    // no iterator of operations: it would yield Results, tested in each round as here, and save the round's last line alone
    while let Some(standing) = read(panel, book, at, end).map_err(|refusal| Refused {
        refusal,
        place: at,
    })? {
        uses |= is_and(standing.placed);
        at = standing.next;
    }
    Ok(uses)
}

// A faulty operation anywhere counts before AND, of which the first screen counts.
pub(crate) fn read_bodies(panel: Panel, book: &[u8], spans: &[Span]) -> Result<(), Refused>
    ensures { result ≡ reads (bodies_read panel book.now 0 (bodies spans.now)) }
{
    let mut first = None;
    for (screen, span) in spans.iter().enumerate() {
        let uses = read_body(panel, book, span.start, span.end)?;
        if uses {
            first = first.or(Some(screen));
        }
    }
    match first {
        Some(place) => Err(Refused {
            refusal: Refusal::UsesAnd,
            place,
        }),
        None => Ok(()),
    }
}
