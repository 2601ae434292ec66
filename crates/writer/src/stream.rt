// The pairs of an operation, and of a body.
ghost use Rattle.std.specs.Prelude.{◌≡◌, cond, true, ◌+◌, ◌-◌, ◌*◌, length};
ghost use Rattle.state.specs.State.{valid_panel};
ghost use Rattle.book.specs.Operation.{dot_bit, operation_of, text, dot, glyph};
ghost use Rattle.book.specs.Pairs.{placed_pairs};
ghost use Rattle.book.specs.Range.{InRange, TextRange, RectangleRange, DotRange, GlyphRange};
ghost use Rattle.book.specs.Screen.{operations_from};
ghost use Rattle.writer.specs.Stream.{row_blocks, combination_code, operation_pairs, body_pairs};
ghost use Rattle.writer.specs.Put.{Puts, operations_in, Roomy, WritableBody};

use super::homes::{Homes, text_home};
use super::put::{Stream, cursor};
use book::operation::{Placed, read};
use state::panel::Panel;
use state::registers::Combination;

// Operation 1: a text's codes from its cell on.
fn put_text(stream: &mut Stream, panel: Panel, line: usize, column: usize, codes: &[u8])
    requires { Roomy panel (TextRange panel codes.now line column 0 (length codes.now)) (length codes.now + 5) stream.old }
    ensures { Puts stream.old (operation_pairs panel (text line column codes.now)) stream.new }
{
    let cell = line * panel.columns + column;
    stream.block(text_home(panel) + cell as u16, codes);
}

// Operation 2, row by row. Its numbers one by one: `Placed::Rectangle` holds them so, and a struct would be made for this one call.
fn put_rows(
    stream: &mut Stream,
    panel: Panel,
    top: usize,
    column: usize,
    height: usize,
    width: usize,
    value: u8,
)
    requires { Roomy panel (RectangleRange panel top column height width) (height * (width + 5)) stream.old }
    ensures { Puts stream.old (row_blocks panel top column height width value) stream.new }
{
    for i in 0..height {
        let row = (top + i) * panel.columns + column;
        stream.run(Homes::GRAPHIC + row as u16, value, width);
    }
}

// The code that sets or resets a dot in its byte.
fn dot_code(panel: Panel, x: usize, on: bool) -> u8
    requires { valid_panel panel ≡ true }
    ensures { result ≡ cond on 0xf8 0xf0 + dot_bit panel x }
{
    let from_left = x % panel.width;
    let from_right = panel.width - 1 - from_left;
    let bit = from_right as u8;
    if on { 0xf8 + bit } else { 0xf0 + bit }
}

// Operation 3.
fn put_dot(stream: &mut Stream, panel: Panel, x: usize, y: usize, on: bool)
    requires { Roomy panel (DotRange panel x y) 4 stream.old }
    ensures { Puts stream.old (operation_pairs panel (dot x y on)) stream.new }
{
    let byte = y * panel.columns + x / panel.width;
    stream.command_with_word(Homes::GRAPHIC + byte as u16, 0x24);
    stream.command(dot_code(panel, x, on));
}

// Operation 4: eight rows to the place of their code.
#[tactic(auto, unfolding(crate::specs::Stream::operation_pairs))]
fn put_glyph(stream: &mut Stream, panel: Panel, k: u8, rows: &[u8])
    requires { Roomy panel (GlyphRange rows.now k 0) (length rows.now + 5) stream.old }
    ensures { Puts stream.old (operation_pairs panel (glyph k rows.now)) stream.new }
{
    stream.block(Homes::GLYPHS + 8 * (k - 0x80) as u16, rows);
}

// Beside `u8::from`, which gives the number that an image holds: the controller's codes leave 82H out.
/// The code that sets a combination, characters internal.
pub fn combination_code(combination: Combination) -> u8
    ensures { result ≡ combination_code combination }
{
    match combination {
        Combination::Or => 0x80,
        Combination::Exor => 0x81,
        Combination::And => 0x83,
        Combination::Attribute => 0x84,
    }
}

// The pairs of an operation that was found in the book.
#[tactic(auto, unfolding(crate::specs::Stream::operation_pairs))]
fn put_operation(stream: &mut Stream, panel: Panel, book: &[u8], placed: Placed)
    requires { Roomy panel (InRange panel book.now placed) (placed_pairs placed) stream.old }
    ensures { Puts stream.old (operation_pairs panel (operation_of book.now placed)) stream.new }
{
    match placed {
        Placed::Text(line, column, from, n) => {
            let codes = &book[from..from + n as usize];
            put_text(stream, panel, line as usize, column as usize, codes)
        }
        Placed::Rectangle(top, column, height, width, value) => put_rows(
            stream,
            panel,
            top as usize,
            column as usize,
            height as usize,
            width as usize,
            value,
        ),
        Placed::Dot(x, y, on) => put_dot(stream, panel, x as usize, y as usize, on),
        Placed::Glyph(k, from) => put_glyph(stream, panel, k, &book[from..from + 8]),
        Placed::Cursor(line, column, height, blink) => {
            stream.add(&cursor(panel, line, column, height, blink))
        }
        Placed::Combine(combination) => stream.command(combination_code(combination)),
    }
}

// The pairs of a body whose operations are all sound. Start and end and no `Span`: `check`, which finds them, answers none.
pub(crate) fn put_body(stream: &mut Stream, panel: Panel, book: &[u8], start: usize, end: usize)
    requires { WritableBody panel book.now start end stream.old }
    ensures { Puts stream.old (body_pairs panel (operations_in (operations_from (end - start) panel book.now start end))) stream.new }
{
    let mut next = start;
    // no iterator of operations: it would yield Results, tested in each round as here, and save the round's last line alone
    while let Ok(Some(standing)) = read(panel, book, next, end) {
        put_operation(stream, panel, book, standing.placed);
        next = standing.next;
    }
}
