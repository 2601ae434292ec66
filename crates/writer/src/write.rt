// A screen of a book written.
ghost use Rattle.std.specs.Prelude.{◌≡◌, ◌+◌, ◌*◌, ◌≤◌, true, OnErr};
ghost use Rattle.state.specs.State.{valid_panel};
ghost use Rattle.writer.specs.Written.{most_of_body, written_reply, counted_screen, wrote_all, write_of};

use super::opening::put_opening;
use super::put::Stream;
use super::stream::put_body;
use book::check::check;
use state::panel::Panel;
use state::refusal::{Refusal, Refused};

// The pairs of a whole stream: those of the opening and those of the body's operations.
fn total(panel: Panel, pairs: usize) -> usize
    requires panel_value { valid_panel panel ≡ true }
    requires few { pairs ≤ most_of_body }
    ensures { result ≡ 1057 + 9 * (panel.columns * panel.lines) + pairs }
{
    1057 + 9 * (panel.columns * panel.lines) + pairs
}

/// The pairs of a screen's stream. Refused: an `Invalid` panel, place 0; `WrongBook`, `NoSuchScreen`, `WrongOperation` as of `check`.
pub fn count(panel: Panel, book: &[u8], number: usize) -> Result<usize, Refused>
    ensures { written_reply result ≡ counted_screen panel book.now number }
{
    let checked = check(panel, book, number)?;
    Ok(total(panel, checked.pairs))
}

/// The stream of a screen, in the start of a lent room with two bytes for each pair; its pairs are answered, and the room's rest stays.
/// Refused, with the room as it was: as by `count`; `NoRoomForStream` with the pairs needed.
pub fn write(panel: Panel, book: &[u8], number: usize, room: &mut [u8]) -> Result<usize, Refused>
    ensures value { wrote_all (written_reply result) room.new ≡ write_of panel book.now number room.old }
    ensures refused { OnErr result (room.new ≡ room.old) }
{
    let checked = check(panel, book, number)?;
    let pairs = total(panel, checked.pairs);
    if room.len() < 2 * pairs {
        return Err(Refused {
            refusal: Refusal::NoRoomForStream,
            place: pairs,
        });
    }
    let mut stream = Stream { room, at: 0 };
    put_opening(&mut stream, panel);
    put_body(&mut stream, panel, book, checked.start, checked.end);
    Ok(pairs)
}
