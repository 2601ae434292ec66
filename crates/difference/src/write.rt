// The short stream between two screens of a book.
ghost use Rattle.std.specs.Prelude.{◌≡◌, true, OnErr};
ghost use Rattle.state.specs.State.{valid_panel};
ghost use Rattle.book.specs.Screen.{screen_of};
ghost use Rattle.writer.specs.Written.{written_reply, wrote_all};
ghost use Rattle.difference.specs.Change.{change_screens, change_of};
ghost use Rattle.difference.specs.Drawing.{Fronts, Draws, DrawsOver, planes_now, planes_in};

use super::changes::{Planes, write_short};
use contents::ask::ask;
use picture::plan::planes;
use picture::style::Style;
use state::panel::Panel;
use state::refusal::{Refusal, Refused};

// A screen's planes, at the start of room for any panel's since there is no heap, and its style. It is drawn in place: handed out in a
// `Result` its 24,064 bytes would be moved, and lie on the stack more than once.
#[derive(Drop)]
struct Drawn {
    graphic: [u8; 20480],
    codes: [u8; 2560],
    glyphs: [u8; 1024],
    style: Style,
}

// A screen's planes at the front of room for any panel's; slices, since no proof follows a part of an array behind `&mut self`.
fn front_planes(
    panel: Panel,
    book: &[u8],
    key: usize,
    graphic: &mut [u8],
    codes: &mut [u8],
    glyphs: &mut [u8],
) -> Result<Style, Refused>
    requires { Fronts panel graphic.old codes.old glyphs.old }
    ensures { DrawsOver panel (screen_of panel book.now key) result graphic.new codes.new glyphs.new }
{
    let size = panel.cell_count();
    planes(
        panel,
        book,
        key,
        &mut graphic[..8 * size],
        &mut codes[..size],
        glyphs,
    )
}

impl Drawn {
    const BLANK: Drawn = Drawn {
        graphic: [0; 20480],
        codes: [0; 2560],
        glyphs: [0; 1024],
        style: Style::BLANK,
    };

    fn draw(&mut self, panel: Panel, book: &[u8], key: usize) -> Result<(), Refused>
        requires { valid_panel panel ≡ true }
        ensures { Draws panel (screen_of panel book.now key) result self.new }
    {
        let Drawn {
            graphic,
            codes,
            glyphs,
            style,
        } = self;
        *style = front_planes(panel, book, key, graphic, codes, glyphs)?;
        Ok(())
    }

    // What the panel has of the planes.
    fn planes(&self, panel: Panel) -> Planes<'_>
        requires { valid_panel panel ≡ true }
        ensures { planes_now result ≡ planes_in panel self.now }
    {
        let size = panel.cell_count();
        Planes {
            graphic: &self.graphic[..8 * size],
            codes: &self.codes[..size],
            glyphs: &self.glyphs,
        }
    }
}

// Both screens are there: `WrongOperation` of A, then of B, then `NoRoomForStream`.
fn write_screens(
    panel: Panel,
    book: &[u8],
    a: usize,
    b: usize,
    room: &mut [u8],
) -> Result<usize, Refused>
    requires { valid_panel panel ≡ true }
    ensures value { wrote_all (written_reply result) room.new ≡ change_screens panel room.old (screen_of panel book.now a) (screen_of panel book.now b) }
    ensures refused { OnErr result (room.new ≡ room.old) }
{
    let mut old = Drawn::BLANK;
    old.draw(panel, book, a)?;
    let mut new = Drawn::BLANK;
    new.draw(panel, book, b)?;
    write_short(room, panel, old.planes(panel), new.planes(panel), new.style)
}

/// The short stream from screen a to screen b, for a controller that has just run a's stream, in the start of a lent room with two bytes
/// for each pair; its pairs are answered, and the room's rest stays. Refused, with the room as it was: an `Invalid` panel, place 0;
/// `WrongBook` and `NoSuchScreen` of a, then of b; `WrongOperation` of a, then of b; `NoRoomForStream` with the pairs needed.
pub fn write_change(
    panel: Panel,
    book: &[u8],
    a: usize,
    b: usize,
    room: &mut [u8],
) -> Result<usize, Refused>
    ensures value { wrote_all (written_reply result) room.new ≡ change_of panel book.now a b room.old }
    ensures refused { OnErr result (room.new ≡ room.old) }
{
    if !panel.valid() {
        return Err(Refusal::Invalid.into());
    }
    ask(book, a)?;
    ask(book, b)?;
    write_screens(panel, book, a, b, room)
}
