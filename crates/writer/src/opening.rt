// The opening of a stream: the registers set, the three areas cleared.
ghost use Rattle.std.specs.Prelude.{◌≡◌, true, ◌+◌, ◌*◌};
ghost use Rattle.state.specs.State.{valid_panel};
ghost use Rattle.writer.specs.Stream.{plane_pairs, set_up, opening};
ghost use Rattle.writer.specs.Put.{Puts, RoomFor};

use super::homes::{Homes, text_home};
use super::put::Stream;
use state::panel::Panel;

// Text home and area, graphic home and area.
fn put_planes(stream: &mut Stream, panel: Panel)
    requires panel_value { valid_panel panel ≡ true }
    requires room_for { RoomFor 12 stream.old }
    ensures { Puts stream.old (plane_pairs panel) stream.new }
{
    let columns = panel.columns as u8;
    stream.command_with_word(text_home(panel), 0x40);
    stream.command_with(columns, 0, 0x41);
    stream.command_with_word(Homes::GRAPHIC, 0x42);
    stream.command_with(columns, 0, 0x43);
}

// Auto off first, so that the other codes are taken.
fn put_set_up(stream: &mut Stream, panel: Panel)
    requires panel_value { valid_panel panel ≡ true }
    requires room_for { RoomFor 18 stream.old }
    ensures { Puts stream.old (set_up panel) stream.new }
{
    stream.command(0xb2);
    put_planes(stream, panel);
    stream.command_with(0x1f, 0, 0x22);
    stream.command(0x80);
    stream.command(0x9c);
}

pub(crate) fn put_opening(stream: &mut Stream, panel: Panel)
    requires panel_value { valid_panel panel ≡ true }
    requires room_for { RoomFor (1057 + 9 * (panel.columns * panel.lines)) stream.old }
    ensures { Puts stream.old (opening panel) stream.new }
{
    let cells = panel.lines * panel.columns;
    put_set_up(stream, panel);
    stream.run(Homes::GRAPHIC, 0, 8 * cells);
    stream.run(text_home(panel), 0, cells);
    stream.run(Homes::GLYPHS, 0, 1024);
}
