// Pairs of a short stream put behind it.
ghost use Rattle.std.specs.Prelude.{◌∷◌};
ghost use Rattle.picture.specs.Laid.{laid};
ghost use Rattle.writer.specs.Stream.{code, combination_code};
ghost use Rattle.writer.specs.Put.{Puts, RoomFor};
ghost use Rattle.difference.specs.Short.{change_at, end_pairs};
ghost use Rattle.difference.specs.Differing.{Ending};

use picture::style::Style;
use state::panel::Panel;
use writer::put::{Stream, command, cursor, datum};
use writer::stream::combination_code;

// Pointer set, the new byte, C4H: stored, and the pointer stays.
pub(crate) fn put_change(stream: &mut Stream, address: u16, byte: u8)
    requires { RoomFor 5 stream.old }
    ensures { Puts stream.old (change_at address byte) stream.new }
{
    let [low, high] = address.to_le_bytes();
    stream.add(&[
        datum(low),
        datum(high),
        command(0x24),
        datum(byte),
        command(0xc4),
    ]);
}

// B's mode code, then 9CH or its cursor.
pub(crate) fn put_end(stream: &mut Stream, panel: Panel, style: Style)
    requires { Ending panel (laid style.cursor) stream.old }
    ensures { Puts stream.old (code (combination_code style.combination) ∷ end_pairs panel (laid style.cursor)) stream.new }
{
    stream.add(&[command(combination_code(style.combination))]);
    match style.cursor {
        None => stream.add(&[command(0x9c)]),
        Some(laid) => {
            let place = laid.cursor;
            stream.add(&cursor(panel, place.y, place.x, place.height, laid.blink))
        }
    }
}
