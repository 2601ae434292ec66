// The operations of a screen, as they stand in the book.
ghost use Rattle.std.specs.Prelude.{◌≡◌, IfErr};
ghost use Rattle.book.specs.Operation.{sized, read_text, read_rectangle, read_dot, read_glyph, read_cursor, read_combine, found_here, found_at};
ghost use Rattle.book.specs.Pairs.{placed_pairs};
ghost use Rattle.state.specs.declared.refusal.Refusal.TheVariants.{WrongOperation};
ghost use Rattle.book.specs.Screen.{operations_from};
ghost use Rattle.book.specs.Replies.{found, standing};
ghost use Rattle.book.specs.Numbers.{screen_number, screen_place, found_number, found_place};

use super::here::Here;
use super::product::{below_product, within_product};
use contents::bytes::{byte_at, word_at};
use state::panel::Panel;
use state::refusal::Refusal;
use state::registers::Combination;

/// An operation; codes and rows stay in the book, at a byte of it.
#[derive(Clone, Copy, Debug, PartialEq, Eq)]
pub enum Placed {
    /// line, column, where the codes stand, how many
    Text(u8, u8, usize, u8),
    /// top, column, height, width, value
    Rectangle(u8, u8, u8, u8, u8),
    /// x, y, set or reset
    Dot(u16, u8, bool),
    /// code, where the eight rows stand
    Glyph(u8, usize),
    /// line, column, height, blink
    Cursor(u8, u8, u8, bool),
    /// how text and graphic are combined
    Combine(Combination),
}

/// An operation that stands in a book, and the byte behind it.
#[derive(Clone, Copy, Debug, PartialEq, Eq)]
pub struct Standing {
    pub placed: Placed,
    pub next: usize,
}

// `ranged` goes beside `placed`, so that one test stands for the five that return early in the functions below.
// An operation of `size` bytes, unless it is cut by the body's end or out of range.
fn whole(here: &Here<'_>, size: usize, ranged: bool, placed: Placed) -> Option<Standing>
    ensures { standing result ≡ sized here.now.at here.now.end size ranged placed }
{
    if (size <= here.end - here.at) & ranged {
        Some(Standing {
            placed,
            next: here.at + size,
        })
    } else {
        None
    }
}

// 1 line col n codes.
fn read_text(here: &Here<'_>) -> Option<Standing>
    ensures { standing result ≡ read_text here.now.panel here.now.book.now here.now.at here.now.end }
{
    let panel = here.panel;
    let line = here.byte(1);
    let column = here.byte(2);
    let n = here.byte(3);
    let ranged = ((line as usize) < panel.lines)
        & (1 <= n)
        & (n <= 80)
        & (column as usize + n as usize <= panel.columns);
    let placed = Placed::Text(line, column, here.at + 4, n);
    whole(here, 4 + n as usize, ranged, placed)
}

// 2 top col height width value.
fn read_rectangle(here: &Here<'_>) -> Option<Standing>
    ensures { standing result ≡ read_rectangle here.now.panel here.now.book.now here.now.at here.now.end }
{
    let panel = here.panel;
    let top = here.byte(1);
    let column = here.byte(2);
    let height = here.byte(3);
    let width = here.byte(4);
    let value = here.byte(5);
    let ranged = (1 <= height)
        & (1 <= width)
        & within_product(top as usize + height as usize, 8, panel.lines)
        & (column as usize + width as usize <= panel.columns);
    let placed = Placed::Rectangle(top, column, height, width, value);
    whole(here, 6, ranged, placed)
}

// 3 xlow xhigh y v.
fn read_dot(here: &Here<'_>) -> Option<Standing>
    ensures { standing result ≡ read_dot here.now.panel here.now.book.now here.now.at here.now.end }
{
    let panel = here.panel;
    let x = word_at(here.book, here.at + 1);
    let y = here.byte(3);
    let v = here.byte(4);
    let ranged = below_product(x as usize, panel.columns, panel.width)
        & below_product(y as usize, 8, panel.lines)
        & (v <= 1);
    let placed = Placed::Dot(x, y, v == 1);
    whole(here, 5, ranged, placed)
}

// 4 code eight rows.
fn read_glyph(here: &Here<'_>) -> Option<Standing>
    ensures { standing result ≡ read_glyph here.now.panel here.now.book.now here.now.at here.now.end }
{
    let code = here.byte(1);
    let placed = Placed::Glyph(code, here.at + 2);
    whole(here, 10, 0x80 <= code, placed)
}

// 5 line col height blink.
fn read_cursor(here: &Here<'_>) -> Option<Standing>
    ensures { standing result ≡ read_cursor here.now.panel here.now.book.now here.now.at here.now.end }
{
    let panel = here.panel;
    let line = here.byte(1);
    let column = here.byte(2);
    let height = here.byte(3);
    let blink = here.byte(4);
    let ranged = ((line as usize) < panel.lines)
        & ((column as usize) < panel.columns)
        & (1 <= height)
        & (height <= 8)
        & (blink <= 1);
    let placed = Placed::Cursor(line, column, height, blink == 1);
    whole(here, 5, ranged, placed)
}

// 6 k: 0 OR, 1 EXOR, 2 AND. A book of form two begins with 0, and does not know AND.
fn read_combine(here: &Here<'_>) -> Option<Standing>
    ensures { standing result ≡ read_combine here.now.book.now here.now.at here.now.end }
{
    // the definition's `is_two`, here as in contents and layout: a function would say this one test by another name
    let two = byte_at(here.book, 0) == 0;
    let combination = match here.byte(1) {
        0 => Combination::Or,
        1 => Combination::Exor,
        2 if !two => Combination::And,
        _ => return None,
    };
    whole(here, 2, true, Placed::Combine(combination))
}

// The operation that begins at a byte inside the body.
fn read_here(here: &Here<'_>) -> Option<Standing>
    ensures { standing result ≡ found_here here.now.panel here.now.book.now here.now.at here.now.end }
{
    let code = byte_at(here.book, here.at);
    match code {
        1 => read_text(here),
        2 => read_rectangle(here),
        3 => read_dot(here),
        4 => read_glyph(here),
        5 => read_cursor(here),
        6 => read_combine(here),
        _ => None,
    }
}

// A place in the book, and no `Here`: docs/PROMISES.md names this function, and any place may be asked about.
/// What stands at a byte of a body that ends before `end`: an operation with the byte behind it, or none at the body's end.
/// `WrongOperation` where it is unknown, cut by the body's end or out of the panel's range.
pub fn read(panel: Panel, book: &[u8], at: usize, end: usize) -> Result<Option<Standing>, Refusal>
    ensures value { found result ≡ found_at panel book.now at end }
    ensures result_value { (found_number (found result) ≡ screen_number (operations_from 1 panel book.now at end)) × (found_place at (found result) ≡ screen_place (operations_from 1 panel book.now at end)) }
    ensures refusal { IfErr result (λ e. e ≡ WrongOperation) }
{
    if end <= at {
        return Ok(None);
    }
    if book.len() < end {
        return Err(Refusal::WrongOperation);
    }
    let here = Here {
        panel,
        book,
        at,
        end,
    };
    // `.map(Some).ok_or(..)` would turn the Option inside out, no plainer than these two arms
    match read_here(&here) {
        Some(standing) => Ok(Some(standing)),
        None => Err(Refusal::WrongOperation),
    }
}

/// The pairs that an operation is written in.
pub fn pairs(placed: Placed) -> usize
    ensures { result ≡ placed_pairs placed }
{
    match placed {
        Placed::Text(_, _, _, n) => n as usize + 5,
        Placed::Rectangle(_, _, height, width, _) => height as usize * (width as usize + 5),
        Placed::Dot(_, _, _) => 4,
        Placed::Glyph(_, _) => 13,
        Placed::Cursor(_, _, _, _) => 5,
        Placed::Combine(_) => 1,
    }
}
