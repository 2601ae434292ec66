// A screen of a book as planes, with no dot of it painted.
ghost use Rattle.std.specs.Prelude.{◌≡◌, true, OnOk, OnErr};
ghost use Rattle.state.specs.State.{valid_panel};
ghost use Rattle.picture.specs.Ready.{Sized};
ghost use Rattle.picture.specs.Planned.{planned_all, styled, planes_of};

use super::apply::Canvas;
use super::plane::clear;
use super::style::Style;
use book::check::check;
use state::panel::Panel;
use state::refusal::{Refusal, Refused};

// Planes as parameters, judged here: docs/PROMISES.md names this; the draw program and difference hand in parts of their arrays.
/// The planes of a screen's picture, asked for by its key, and its style: `graphic` of C·8L bytes, `codes` of C·L, `glyphs` of 1,024.
/// Refused, with the planes as they were: a panel that is not valid, a plane of another length, a wrong book or screen with its place.
#[tactic(auto, unfolding(crate::specs::Planned::planes_of))]
pub fn planes(
    panel: Panel,
    book: &[u8],
    key: usize,
    graphic: &mut [u8],
    codes: &mut [u8],
    glyphs: &mut [u8],
) -> Result<Style, Refused>
    ensures planned { planned_all (styled result) graphic.new codes.new glyphs.new
        ≡ planes_of panel book.now key graphic.old codes.old glyphs.old }
    ensures lent { OnOk result ((valid_panel panel ≡ true) × Sized panel graphic.new codes.new glyphs.new) }
    ensures err { OnErr result ((graphic.new ≡ graphic.old) × (codes.new ≡ codes.old) × (glyphs.new ≡ glyphs.old)) }
{
    if !panel.valid() {
        return Err(Refusal::Invalid.into());
    }
    let fits = (graphic.len() == 8 * panel.lines * panel.columns)
        & (codes.len() == panel.lines * panel.columns)
        & (glyphs.len() == 1024);
    if !fits {
        return Err(Refusal::WrongLength.into());
    }
    let body = check(panel, book, key)?;
    clear(graphic);
    clear(codes);
    clear(glyphs);
    let mut canvas = Canvas {
        panel,
        graphic,
        codes,
        glyphs,
        style: Style::BLANK,
    };
    canvas.apply_all(book, body.start, body.end);
    Ok(canvas.style)
}
