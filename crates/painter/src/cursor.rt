// What the cursor of a picture covers.
ghost use Rattle.std.specs.Prelude.{◌≡◌, ◌<◌};
ghost use Rattle.picture.specs.Laid.{laid};
ghost use Rattle.picture.specs.Picture.{cursor_over, covered_by};

use picture::cursor::Laid;
use state::panel::Panel;
use state::registers::Cursor;

// Whether there is one that covers a cell in the cell's dot row v.
pub(crate) fn covers(
    cursor: Option<Laid>,
    panel: Panel,
    line: usize,
    v: usize,
    column: usize,
) -> bool
    requires { v < 8 }
    ensures { result ≡ covered_by panel (laid cursor) line v column }
{
    cursor.is_some_and(|laid| reaches(laid.cursor, panel, line, v, column))
}

// Beside display's, which compares with `panel.cursor_y`: a picture's cursor has its line as it is.
// A cursor on the panel: its cell, and there the lowest rows, as many as its height.
fn reaches(cursor: Cursor, panel: Panel, line: usize, v: usize, column: usize) -> bool
    requires { v < 8 }
    ensures { result ≡ cursor_over panel cursor line v column }
{
    let x = cursor.x as usize;
    let y = cursor.y as usize;
    (x < panel.columns)
        & (y < panel.lines)
        & (x == column)
        & (y == line)
        & (8 <= v + cursor.height as usize)
}
