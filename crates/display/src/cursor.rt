// Whether the cursor is lit, and which cells it covers.
ghost use Rattle.std.specs.Prelude.{◌≡◌, ◌≤◌};
ghost use Rattle.display.specs.Displayed.{cursor_lit, cursor_covers};

use state::panel::Panel;
use state::registers::Cursor;

// Whether the cursor shows: it is on, and steady or in the phase that shows a blinking one.
pub(crate) fn cursor_lit(on: bool, blink: bool, normal: bool) -> bool
    ensures { result ≡ cursor_lit on blink normal }
{
    on & (!blink | normal)
}

// Beside painter's, which draws no controller's picture: there the cursor names a line, here the Y that the controller has for it.
// Whether the cursor covers a cell in its dot row v.
pub(crate) fn cursor_covers(
    panel: Panel,
    cursor: Cursor,
    line: usize,
    v: usize,
    column: usize,
) -> bool
    requires { (panel.lines ≤ 32) × (cursor.height ≤ 8) }
    ensures { result ≡ cursor_covers panel cursor line v column }
{
    if panel.lines <= line {
        return false;
    }
    let x = cursor.x as usize;
    let y = panel.cursor_y(line as u8);
    (x < panel.columns)
        & (x == column)
        & (cursor.y as usize == y)
        & (8 - cursor.height as usize <= v)
}
