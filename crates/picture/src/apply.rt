// Operations applied to planes and style, later over earlier.
ghost use Rattle.std.specs.Prelude.{◌≡◌, ◌-◌, ◌*◌, ◌+◌, ◌≤◌, true, length, set, get_or};
ghost use Rattle.std.proofs.lemmas.List.Edits.{sets};
ghost use Rattle.ground.specs.Bytes.{with_bit};
ghost use Rattle.book.specs.Operation.{operation_of, dot_byte, dot_bit};
ghost use Rattle.book.specs.Range.{InRange, TextRange, RectangleRange, DotRange};
ghost use Rattle.book.specs.Screen.{operations_from};
ghost use Rattle.picture.specs.Picture.{filled, applied};
ghost use Rattle.state.specs.Sizes.{cell_count};
ghost use Rattle.state.specs.State.{valid_panel};
ghost use Rattle.picture.specs.Ready.{graphic_bytes, InPlane, applied_in, DrawableBody};

use super::cursor::Laid;
use super::plane::{fill, store};
use super::style::Style;
use book::operation::{Placed, read};
use ground::bytes::with_bit;
use state::panel::Panel;
use state::registers::Cursor;

/// A picture that is being made: a valid panel's planes as they are lent, and the style so far.
#[derive(Drop)]
pub(crate) struct Canvas<'a> {
    pub panel: Panel,
    pub graphic: &'a mut [u8],
    pub codes: &'a mut [u8],
    pub glyphs: &'a mut [u8],
    pub style: Style,
    ghost valid: { valid_panel panel ≡ true },
    ghost rows: { length graphic.now ≡ graphic_bytes panel },
    ghost cells: { length codes.now ≡ cell_count panel },
    ghost shapes: { length glyphs.now ≡ 1024 },
}

// Operation 1: a text's codes from its cell on. Functions of the one plane that each changes, here and below: as methods each would promise
// that the others stay.
fn lay_text(codes: &mut [u8], panel: Panel, line: usize, column: usize, text: &[u8])
    requires { InPlane panel (TextRange panel text.now line column 0 (length text.now)) (cell_count panel) codes.old }
    ensures { codes.new ≡ sets codes.old (line * panel.columns + column) text.now }
{
    store(codes, line * panel.columns + column, text);
}

// Operation 2, row by row. Its numbers one by one: `Placed::Rectangle` holds them so, and a struct would be made for this one call.
fn lay_rectangle(
    graphic: &mut [u8],
    panel: Panel,
    top: usize,
    column: usize,
    height: usize,
    width: usize,
    value: u8,
)
    requires { InPlane panel (RectangleRange panel top column height width) (graphic_bytes panel) graphic.old }
    ensures { graphic.new ≡ filled panel top column height width value graphic.old }
{
    for row in top..top + height {
        fill(graphic, row * panel.columns + column, width, value);
    }
}

// Operation 3: bit w-1-(x mod w) of the dot's byte.
fn lay_dot(graphic: &mut [u8], panel: Panel, x: usize, y: usize, on: bool)
    requires { InPlane panel (DotRange panel x y) (graphic_bytes panel) graphic.old }
    ensures { graphic.new ≡ set graphic.old (dot_byte panel x y) (with_bit (get_or graphic.old (dot_byte panel x y) 0) (dot_bit panel x) on) }
{
    let at = y * panel.columns + x / panel.width;
    let bit = (panel.width - 1 - x % panel.width) as u8;
    graphic[at] = with_bit(graphic[at], bit, on);
}

// Operation 4: eight rows to the place of their code.
fn lay_glyph(glyphs: &mut [u8], k: u8, rows: &[u8])
    requires { (0x80 ≤ k) × (length rows.now ≡ 8) × (length glyphs.old ≡ 1024) }
    ensures { glyphs.new ≡ sets glyphs.old (8 * (k - 0x80)) rows.now }
{
    store(glyphs, 8 * (k - 0x80) as usize, rows);
}

impl Canvas<'_> {
    ghost use Rattle.picture.specs.Drawn.{drawn, SamePlanes};

    // An operation that was found in the book.
    #[tactic(auto, unfolding(crate::specs::Picture::applied))]
    fn apply(&mut self, book: &[u8], placed: Placed)
        requires { InRange self.old.panel book.now placed }
        ensures same { SamePlanes self.old self.new }
        ensures made { drawn self.new ≡ applied self.old.panel (operation_of book.now placed) (drawn self.old) }
    {
        let panel = self.panel;
        match placed {
            Placed::Text(line, column, from, n) => {
                let text = &book[from..from + n as usize];
                lay_text(self.codes, panel, line as usize, column as usize, text)
            }
            Placed::Rectangle(top, column, height, width, value) => lay_rectangle(
                self.graphic,
                panel,
                top as usize,
                column as usize,
                height as usize,
                width as usize,
                value,
            ),
            Placed::Dot(x, y, on) => lay_dot(self.graphic, panel, x as usize, y as usize, on),
            Placed::Glyph(k, from) => lay_glyph(self.glyphs, k, &book[from..from + 8]),
            Placed::Cursor(line, column, height, blink) => {
                let cursor = Cursor {
                    x: column,
                    y: line,
                    height,
                };
                self.style.cursor = Some(Laid { cursor, blink });
            }
            Placed::Combine(combination) => self.style.combination = combination,
        }
    }

    // A body whose operations are all sound. Start and end and no `Span`: `check`, which finds them, answers none.
    pub(crate) fn apply_all(&mut self, book: &[u8], start: usize, end: usize)
        requires { DrawableBody self.old.panel book.now start end }
        ensures same { SamePlanes self.old self.new }
        ensures made { let p = self.old.panel in drawn self.new ≡ applied_in p (operations_from (end - start) p book.now start end) (drawn self.old) }
    {
        let mut next = start;
        // no iterator of operations: it would yield Results, tested in each round as here, and save the round's last line alone
        while let Ok(Some(standing)) = read(self.panel, book, next, end) {
            self.apply(book, standing.placed);
            next = standing.next;
        }
    }
}
