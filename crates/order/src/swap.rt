// Two neighbours in a screen, and whether they may change places.
ghost use Rattle.std.specs.Prelude.{◌≡◌, true, ◌-◌};
ghost use Rattle.state.specs.State.{valid_panel};
ghost use Rattle.book.specs.Operation.{found_at};
ghost use Rattle.book.specs.Screen.{operations_from};
ghost use Rattle.picture.specs.Ready.{DrawableBody};
ghost use Rattle.order.specs.Order.{may_by};
ghost use Rattle.order.specs.Swapping.{kind_of, uses_plane, placed_number, placed_area, beside_in, swap_in, swap_of};
ghost use Rattle.order.specs.Replies.{swap, swapped};

use super::area::Area;
use book::check::check;
use book::operation::{Placed, read};
use state::panel::Panel;
use state::refusal::Refused;

// No `Option<bool>`: `None` and `Some(false)` would say less at the callers than these names.
/// Whether two neighbours may change places, or that there are no such two.
#[derive(Clone, Copy, Debug, PartialEq, Eq)]
pub enum Swap {
    May,
    Stays,
    NoTwo,
}

// What an operation is. Rectangles and dots are of one kind: both change graphic bytes.
#[derive(Clone, Copy, Debug, PartialEq, Eq)]
enum Kind {
    Text,
    Graphic,
    Glyph,
    Cursor,
    Combination,
}

impl Kind {
    fn of(placed: Placed) -> Kind
        ensures { result ≡ kind_of placed }
    {
        match placed {
            Placed::Text(_, _, _, _) => Kind::Text,
            Placed::Rectangle(_, _, _, _, _) | Placed::Dot(_, _, _) => Kind::Graphic,
            Placed::Glyph(_, _) => Kind::Glyph,
            Placed::Cursor(_, _, _, _) => Kind::Cursor,
            Placed::Combine(_) => Kind::Combination,
        }
    }

    // Whether it uses places of a plane.
    fn uses_plane(self) -> bool
        ensures { result ≡ uses_plane self }
    {
        matches!(self, Kind::Text | Kind::Graphic | Kind::Glyph)
    }
}

// The rule: of unlike kinds, or of one that uses a plane, with no place in common.
fn may(panel: Panel, first: Placed, second: Placed) -> bool
    requires { valid_panel panel ≡ true }
    ensures { result ≡ may_by (placed_number first) (placed_number second) (placed_area panel first) (placed_area panel second) }
{
    let kind = Kind::of(first);
    let unlike = kind != Kind::of(second);
    let shared = Area::of(panel, first).shares(Area::of(panel, second));
    unlike | (kind.uses_plane() & !shared)
}

// An operation and the one that begins behind it.
fn beside(panel: Panel, book: &[u8], first: Placed, behind: usize, end: usize) -> Swap
    requires { valid_panel panel ≡ true }
    ensures { swap result ≡ beside_in panel first (found_at panel book.now behind end) }
{
    match read(panel, book, behind, end) {
        Ok(Some(second)) if may(panel, first, second.placed) => Swap::May,
        Ok(Some(_)) => Swap::Stays,
        Ok(None) | Err(_) => Swap::NoTwo,
    }
}

// Operation i of a body whose operations are all sound, and the one behind it. Start and end and no `Span`:
// `check`, which finds them, answers none.
fn find(panel: Panel, book: &[u8], start: usize, end: usize, i: usize) -> Swap
    requires { DrawableBody panel book.now start end }
    ensures { swap result ≡ swap_in panel (operations_from (end - start) panel book.now start end) i }
{
    let mut next = start;
    // no iterator of operations: it would yield Results, tested in each round as here, and save the round's last line alone
    for _ in 0..i {
        let Ok(Some(standing)) = read(panel, book, next, end) else {
            return Swap::NoTwo;
        };
        next = standing.next;
    }
    let Ok(Some(first)) = read(panel, book, next, end) else {
        return Swap::NoTwo;
    };
    beside(panel, book, first.placed, first.next, end)
}

/// Whether operations i and i + 1 of the screen that `key` asks for may change places, the first being 0. Refused: a panel that is not
/// valid, a wrong book or screen with its place.
pub fn may_swap(panel: Panel, book: &[u8], key: usize, i: usize) -> Result<Swap, Refused>
    ensures { swapped result ≡ swap_of panel book.now key i }
{
    let body = check(panel, book, key)?;
    Ok(find(panel, book, body.start, body.end, i))
}
