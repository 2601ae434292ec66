// A run's text in parts, for a program that prints as it goes on.
ghost use Rattle.std.specs.Prelude.{◌≡◌};
ghost use Rattle.printed.specs.Printed.{printed};
ghost use Rattle.printed.specs.Parts.{print_line_of, print_refusal_of, print_answers_of, print_rows_of};

use crate::put::Text;
use crate::screen::is_framed;
use state::panel::Panel;

// Number and place are no Result, a count stands beside its list, and nothing printed is 0 and no None, here and below: docs/PROMISES.md names
// these with what they take and answer. A body each, here and in `screen`: one for all would take the line as a closure, whose promise on a
// lent text its contract would have to hand on.
/// The first line at the start of `out`, and its length; 0 where the room has less than 112 bytes.
pub fn print_line(pairs: usize, answers: usize, number: u8, place: usize, out: &mut [u8]) -> usize
    ensures { printed result out.new ≡ print_line_of pairs answers number place out.old }
{
    let fits = 112 <= out.len();
    if fits {
        let mut text = Text { room: out, at: 0 };
        text.first_line(pairs, answers, number, place);
        text.at
    } else {
        0
    }
}

/// A refusal's line, likewise; 0 where the room has less than 56 bytes.
pub fn print_refusal(number: u8, place: usize, out: &mut [u8]) -> usize
    ensures { printed result out.new ≡ print_refusal_of number place out.old }
{
    let fits = 56 <= out.len();
    if fits {
        let mut text = Text { room: out, at: 0 };
        text.refusal(number, place);
        text.at
    } else {
        0
    }
}

/// The lines of the first `given` answers, likewise; 0 where fewer are lent, or a room that is too short for them.
pub fn print_answers(given: usize, answers: &[u8], out: &mut [u8]) -> usize
    ensures { printed result out.new ≡ print_answers_of given answers.now out.old }
{
    let fits = (given <= answers.len()) & (given <= out.len() / 3);
    if fits {
        let mut text = Text { room: out, at: 0 };
        text.hex_lines(&answers[..given]);
        text.at
    } else {
        0
    }
}

/// A frame's rows, likewise; 0 where the panel is not valid, its frame has another length or the room has less than 164,096 bytes.
pub fn print_rows(panel: Panel, frame: &[u8], out: &mut [u8]) -> usize
    ensures { printed result out.new ≡ print_rows_of panel frame.now out.old }
{
    let fits = is_framed(panel, 0, frame) & (164096 <= out.len());
    if fits {
        let mut text = Text { room: out, at: 0 };
        text.frame_lines(panel, frame);
        text.at
    } else {
        0
    }
}
