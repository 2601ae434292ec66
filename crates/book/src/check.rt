// A whole screen checked.
ghost use Rattle.std.specs.Prelude.{◌≡◌, true, ◌-◌};
ghost use Rattle.state.specs.State.{valid_panel};
ghost use Rattle.contents.specs.Inside.{Inside};
ghost use Rattle.book.specs.Screen.{operations_from};
ghost use Rattle.book.specs.Checked.{counted_of, checked_of};
ghost use Rattle.book.specs.Replies.{counted, checked};

use super::operation::{pairs, read};
use contents::ask::ask;
use state::panel::Panel;
use state::refusal::{Refusal, Refused};

/// A screen that was checked: where its body begins in the book, the byte behind it, and the pairs of its operations.
#[derive(Clone, Copy, Debug, PartialEq, Eq)]
pub struct Checked {
    pub start: usize,
    pub end: usize,
    pub pairs: usize,
}

// Start and end and no `Span`, of which the walk would read these two alone, each by a longer name.
// The pairs of a body's operations, added up one after the other.
fn count(panel: Panel, book: &[u8], start: usize, end: usize) -> Result<usize, Refused>
    requires panel_value { valid_panel panel ≡ true }
    requires inside { Inside book.now start end }
    ensures { counted start end result ≡ counted_of start end (operations_from (end - start) panel book.now start end) }
{
    let mut at = start;
    let mut total: usize = 0;
    // no iterator of operations: it would yield Results, tested in each round as here, and save the round's last line alone; no `map_err(..)?`,
    // which copied what was read and took half of the walk's time
    loop {
        match read(panel, book, at, end) {
            Ok(Some(standing)) => {
                total += pairs(standing.placed);
                at = standing.next;
            }
            Ok(None) => return Ok(total),
            Err(refusal) => return Err(Refused { refusal, place: at }),
        }
    }
}

/// A screen of a book, by its number in form one or its identity in form two. The panel is judged first, then the contents,
/// then the screen's body: `Invalid` with place 0; `WrongBook`, `NoSuchScreen` as of `ask`; `WrongOperation` with its byte.
pub fn check(panel: Panel, book: &[u8], number: usize) -> Result<Checked, Refused>
    ensures { checked result ≡ checked_of panel book.now number }
{
    if !panel.valid() {
        return Err(Refused::from(Refusal::Invalid));
    }
    let body = ask(book, number)?;
    let pairs = count(panel, book, body.start, body.end)?;
    Ok(Checked {
        start: body.start,
        end: body.end,
        pairs,
    })
}
