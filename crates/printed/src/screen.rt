// What the programs over a book print of a screen, as bytes in a lent room.
ghost use Rattle.std.specs.Prelude.{◌≡◌, ◌≤◌};
ghost use Rattle.printed.specs.Put.{Puts};
ghost use Rattle.printed.specs.Printed.{printed};
ghost use Rattle.printed.specs.Screen.{framed, screen_lines, print_picture_of, print_rehearsal_of};
ghost use Rattle.printed.specs.Ready.{Lines};

use crate::put::Text;
use state::panel::Panel;

// By number, here and below: `print_picture` and `print_rehearsal` hand theirs on.
// A screen that was not refused has a valid panel and its frame.
pub(crate) fn is_framed(panel: Panel, number: u8, frame: &[u8]) -> bool
    ensures { result ≡ framed panel number frame.now }
{
    if number != 0 {
        return true;
    }
    if panel.valid() {
        let size = panel.frame_size();
        frame.len() == size
    } else {
        false
    }
}

// The rows of a screen that was not refused, behind its line.
fn put_screen(text: &mut Text, panel: Panel, number: u8, frame: &[u8])
    requires { Lines panel number frame.now text.old.room.now text.old.at }
    ensures puts { Puts text.old (screen_lines panel number frame.now) text.new }
    ensures upper_bound { text.new.at ≤ 196608 }
{
    if number != 0 {
        return;
    }
    text.frame_lines(panel, frame);
}

// The number and the place are no Result, and nothing printed is 0, here and below: docs/PROMISES.md names both with what they take and answer.
/// A picture's text at the start of `out`, and its length; 0 where a lent length is wrong.
pub fn print_picture(panel: Panel, number: u8, place: usize, frame: &[u8], out: &mut [u8]) -> usize
    ensures { printed result out.new ≡ print_picture_of panel number place frame.now out.old }
{
    let fits = is_framed(panel, number, frame) & (out.len() == 196608);
    if fits {
        let mut text = Text { room: out, at: 0 };
        text.refusal(number, place);
        put_screen(&mut text, panel, number, frame);
        text.at
    } else {
        0
    }
}

/// The text of a screen that was written and run, likewise.
pub fn print_rehearsal(
    panel: Panel,
    pairs: usize,
    number: u8,
    place: usize,
    frame: &[u8],
    out: &mut [u8],
) -> usize
    ensures { printed result out.new ≡ print_rehearsal_of panel pairs number place frame.now out.old }
{
    let fits = is_framed(panel, number, frame) & (out.len() == 196608);
    if fits {
        let mut text = Text { room: out, at: 0 };
        text.first_line(pairs, 0, number, place);
        put_screen(&mut text, panel, number, frame);
        text.at
    } else {
        0
    }
}
