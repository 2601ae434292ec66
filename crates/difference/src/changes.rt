// Bytes of two planes that differ.
ghost use Rattle.std.specs.Prelude.{◌≡◌, ◌==◌, not, length, count_by, zip, OnErr};
ghost use Rattle.writer.specs.Put.{Puts};
ghost use Rattle.writer.specs.Written.{written_reply, wrote_all};
ghost use Rattle.picture.specs.Laid.{laid};
ghost use Rattle.difference.specs.Short.{changes_from, short_over, end_count};
ghost use Rattle.difference.specs.Change.{write_short};
ghost use Rattle.difference.specs.Differing.{Changing, picture_from, Between, BetweenRoomy};

use super::put::{put_change, put_end};
use picture::cursor::Laid;
use picture::style::Style;
use state::panel::Panel;
use state::refusal::{Refusal, Refused};
use writer::homes::{Homes, text_home};
use writer::put::Stream;

/// The planes of a picture: 8·C·L graphic bytes, C·L text codes and 1,024 glyph bytes.
#[derive(Drop)]
pub(crate) struct Planes<'a> {
    pub graphic: &'a [u8],
    pub codes: &'a [u8],
    pub glyphs: &'a [u8],
}

// How many differ.
fn count_changes(old: &[u8], new: &[u8]) -> usize
    requires { length old.now ≡ length new.now }
    ensures { result ≡ count_by (λ q. not (q.0 == q.1)) (zip old.now new.now) }
{
    let mut count = 0;
    // tried as `zip`, `filter` and `count`: that is built to branches on each byte, this to vectors
    for (i, byte) in new.iter().enumerate() {
        count += usize::from(old[i] != *byte);
    }
    count
}

// Those that differ are put, ascending from a home on.
fn put_changes(stream: &mut Stream, home: u16, old: &[u8], new: &[u8])
    requires { Changing home old.now new.now stream.old }
    ensures { Puts stream.old (changes_from home old.now new.now) stream.new }
{
    // tried over a `zip`: such a loop has no index that its invariant could name
    for (i, byte) in new.iter().enumerate() {
        if old[i] != *byte {
            put_change(stream, home + i as u16, *byte);
        }
    }
}

// The pairs of the mode and of the end.
fn end_count(cursor: Option<Laid>) -> usize
    ensures { result ≡ end_count (laid cursor) }
{
    match cursor {
        None => 2,
        Some(_) => 6,
    }
}

// All that differs between A's planes and those of B, then B's mode and end.
fn put_short(stream: &mut Stream, panel: Panel, a: Planes, b: Planes, style: Style)
    requires { BetweenRoomy panel a (picture_from b style) stream.old }
    ensures { Puts stream.old (short_over panel a.entry.graphic.now a.entry.codes.now a.entry.glyphs.now (picture_from b.entry style)) stream.new }
{
    put_changes(stream, Homes::GRAPHIC, a.graphic, b.graphic);
    put_changes(stream, text_home(panel), a.codes, b.codes);
    put_changes(stream, Homes::GLYPHS, a.glyphs, b.glyphs);
    put_end(stream, panel, style);
}

// The short stream, and its pairs; `NoRoomForStream` with the pairs needed.
pub(crate) fn write_short(
    room: &mut [u8],
    panel: Panel,
    a: Planes,
    b: Planes,
    style: Style,
) -> Result<usize, Refused>
    requires { Between panel a (picture_from b style) }
    ensures value { wrote_all (written_reply result) room.new ≡ write_short panel a.entry.graphic.now a.entry.codes.now a.entry.glyphs.now (picture_from b.entry style) room.old }
    ensures refused { OnErr result (room.new ≡ room.old) }
{
    let dots = count_changes(a.graphic, b.graphic);
    let letters = count_changes(a.codes, b.codes);
    let shapes = count_changes(a.glyphs, b.glyphs);
    let pairs = 5 * (dots + letters + shapes) + end_count(style.cursor);
    if room.len() < 2 * pairs {
        return Err(Refused {
            refusal: Refusal::NoRoomForStream,
            place: pairs,
        });
    }
    let mut stream = Stream { room, at: 0 };
    put_short(&mut stream, panel, a, b, style);
    Ok(pairs)
}
