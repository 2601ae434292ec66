// A screen of a book drawn, with no controller.
ghost use Rattle.std.specs.Prelude.{◌≡◌, OnErr};
ghost use Rattle.state.specs.Replies.{placed_reply};
ghost use Rattle.painter.specs.Drawn.{drew_all, draw_of};

use super::scene::Scene;
use picture::plan::planes;
use state::panel::Panel;
use state::refusal::{Refusal, Refused};

// Planes and frame as parameters: docs/PROMISES.md names this, and the draw program hands in parts of its arrays. Beside display's `admit`:
// here is no memory, and panel and lengths are all that is tested.
/// The planes of a screen's picture and its dots in a phase, true where it is normal: `rom` of 1,024 bytes, `graphic` of C·8L, `codes` of
/// C·L, `glyphs` of 1,024, `frame` of 8·L·R. Refused, with every lent buffer as it was: a panel that is not valid, a buffer of another
/// length, a wrong book or screen with its place.
#[tactic(auto, unfolding(crate::specs::Drawn::draw_of))]
pub fn draw(
    panel: Panel,
    book: &[u8],
    number: usize,
    rom: &[u8],
    phase: bool,
    graphic: &mut [u8],
    codes: &mut [u8],
    glyphs: &mut [u8],
    frame: &mut [u8],
) -> Result<(), Refused>
    ensures drawn { drew_all (placed_reply result) graphic.new codes.new glyphs.new frame.new
        ≡ draw_of panel book.now number rom.now phase graphic.old codes.old glyphs.old frame.old }
    ensures err { OnErr result ((graphic.new ≡ graphic.old) × (codes.new ≡ codes.old) × (glyphs.new ≡ glyphs.old) × (frame.new ≡ frame.old)) }
{
    if !panel.valid() {
        return Err(Refusal::Invalid.into());
    }
    let fits = (rom.len() == 1024) & (frame.len() == panel.frame_size());
    if !fits {
        return Err(Refusal::WrongLength.into());
    }
    let style = planes(panel, book, number, graphic, codes, glyphs)?;
    let scene = Scene {
        panel,
        rom,
        graphic,
        codes,
        glyphs,
        style,
        phase,
    };
    scene.paint(frame);
    Ok(())
}
