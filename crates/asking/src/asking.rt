// A screen of a book written, status asked for before each pair.
ghost use Rattle.std.specs.Prelude.{◌≡◌, OnErr};
ghost use Rattle.writer.specs.Written.{wrote_all, written_reply};
ghost use Rattle.asking.specs.Asking.{asking_of};

use super::spread::spread;
use state::panel::Panel;
use state::refusal::{Refusal, Refused};
use writer::write::{count, write};

/// The asking stream of a screen, in the start of a lent room with two bytes for each pair; its pairs, twice the plain stream's, are
/// answered, and the room's rest stays. Refused, with the room as it was: as by `count`; `NoRoomForStream` with the pairs needed.
pub fn write_asking(
    panel: Panel,
    book: &[u8],
    number: usize,
    room: &mut [u8],
) -> Result<usize, Refused>
    ensures value { wrote_all (written_reply result) room.new ≡ asking_of panel book.now number room.old }
    ensures refused { OnErr result (room.new ≡ room.old) }
{
    let plain = count(panel, book, number)?;
    if room.len() < 4 * plain {
        return Err(Refused {
            refusal: Refusal::NoRoomForStream,
            place: 2 * plain,
        });
    }
    write(panel, book, number, room)?;
    spread(room, plain);
    Ok(2 * plain)
}
