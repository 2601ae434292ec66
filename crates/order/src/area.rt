// What an operation uses: rows by columns of a plane.
ghost use Rattle.std.specs.Prelude.{◌≡◌, true, ◌+◌, ltb};
ghost use Rattle.state.specs.State.{valid_panel};
ghost use Rattle.order.specs.Order.{meets, shares};
ghost use Rattle.order.specs.Swapping.{placed_area};

use book::operation::Placed;
use state::panel::Panel;

/// Rows from `top` on, `height` of them, by columns from `left` on, `width` of them.
#[derive(Clone, Copy, Debug, PartialEq, Eq)]
pub(crate) struct Area {
    pub top: usize,
    pub left: usize,
    pub height: usize,
    pub width: usize,
}

impl Area {
    const NONE: Area = Area {
        top: 0,
        left: 0,
        height: 0,
        width: 0,
    };

    // Text cells, graphic bytes or a code; nothing for a cursor and a combination.
    pub(crate) fn of(panel: Panel, placed: Placed) -> Area
        requires { valid_panel panel ≡ true }
        ensures { result ≡ placed_area panel placed }
    {
        match placed {
            Placed::Text(line, column, _, n) => Area {
                top: line as usize,
                left: column as usize,
                height: 1,
                width: n as usize,
            },
            Placed::Rectangle(top, column, height, width, _) => Area {
                top: top as usize,
                left: column as usize,
                height: height as usize,
                width: width as usize,
            },
            Placed::Dot(x, y, _) => Area {
                top: y as usize,
                left: x as usize / panel.width,
                height: 1,
                width: 1,
            },
            Placed::Glyph(code, _) => Area {
                top: code as usize,
                left: 0,
                height: 1,
                width: 1,
            },
            Placed::Cursor(_, _, _, _) | Placed::Combine(_) => Area::NONE,
        }
    }

    // Whether another has a place in common with it.
    pub(crate) fn shares(self, other: Area) -> bool
        ensures { result ≡ shares self other }
    {
        let rows = meet(self.top, self.height, other.top, other.height);
        let columns = meet(self.left, self.width, other.left, other.width);
        rows & columns
    }
}

// Two stretches, m places from s on and n from t on, have a place in common.
fn meet(s: usize, m: usize, t: usize, n: usize) -> bool
    ensures { result ≡ meets s m t n }
{
    let first = below(s, t, n);
    let second = below(t, s, m);
    ((0 < m) & (0 < n)) & (first & second)
}

// Before the end of a stretch of n from t on.
fn below(s: usize, t: usize, n: usize) -> bool
    ensures { result ≡ ltb s (t + n) }
{
    (s < t) || (s - t < n)
}
