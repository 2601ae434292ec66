// The write program: a panel, a screen's key and a book from standard input; to standard output the log that shows the screen, or
// to standard error its refusal. With an argument the panel is in two halves.
#![tactic(auto)]

ghost use Rattle.std.specs.Prelude.{◌≡◌, true, length};
ghost use Rattle.printed.specs.Printed.{printed, refusal_line, print_text};
ghost use Rattle.state.specs.Refusals.{number_of};
ghost use Rattle.write.specs.Writing.{lengths, given_in, write_given_of};

use contents::bytes::word_at;
use printed::fill::zeroed;
use printed::input::{byte_in, panel_in, rest_in};
use printed::screen::print_picture;
use report::{finish, has_argument, read_whole};
use state::panel::Panel;
use state::refusal::{Refusal, Refused};
use std::io::Print;
use writer::write::write;

// A refusal whose line stands in the error room's first bytes.
#[derive(Clone, Copy, Debug, PartialEq, Eq)]
struct Told {
    line: usize,
    refusal: Refusal,
}

// A refusal's line, by `print_picture`, which docs/PROMISES.md names and which prints no frame behind it.
fn put_refusal(panel: Panel, refused: Refused, error: &mut [u8]) -> usize
    requires { length error.old ≡ 196608 }
    ensures { printed result error.new ≡ print_text true (refusal_line (number_of refused.refusal) refused.place) error.old }
{
    let number = refused.refusal.number();
    let none = [0u8; 0];
    print_picture(panel, number, refused.place, &none, error)
}

// What the program gives, at the start of two rooms, and how much; nothing and `WrongLength` where a room has another length.
fn write_both(dual: bool, input: &[u8], out: &mut [u8], error: &mut [u8]) -> Result<usize, Told>
    ensures { given_in (lengths result) out.new error.new ≡ write_given_of dual input.now out.old error.old }
{
    let fits = (out.len() == 2097155) & (error.len() == 196608);
    if !fits {
        return Err(Told {
            line: 0,
            refusal: Refusal::WrongLength,
        });
    }
    let panel = panel_in(input, dual);
    let key = word_at(input, 3) as usize;
    let book = rest_in(input, 5);
    match write(panel, book, key, &mut out[3..]) {
        Ok(pairs) => {
            // tried as one `copy_from_slice` of these three: the proof that the stream stands behind them did not close
            out[0] = byte_in(input, 0);
            out[1] = byte_in(input, 1);
            out[2] = byte_in(input, 2);
            Ok(3 + 2 * pairs)
        }
        Err(refused) => {
            let line = put_refusal(panel, refused, error);
            Err(Told {
                line,
                refusal: refused.refusal,
            })
        }
    }
}

// The screen written to standard output, or its refusal to standard error: the refusal number. One byte past the limit shows that a book is
// too long; there is room for a panel and 1,048,576 pairs.
fn write_screen(rt: HostRuntime) -> std::io::Result<u8> {
    let mut input = [0u8; 32774];
    let end = read_whole(&mut rt.stdin(), &mut input)?;
    let mut out = zeroed::<2097155>();
    let mut error = [0u8; 196608];
    let dual = has_argument(&rt, 1);
    match write_both(dual, &input[..end], &mut out, &mut error) {
        Ok(output) => {
            rt.write_all(&out[..output])?;
            Ok(0)
        }
        Err(told) => {
            let line = told.line;
            rt.stderr().write_all(&error[..line])?;
            Ok(told.refusal.number())
        }
    }
}

fn main(rt: HostRuntime) {
    finish(write_screen(rt));
}
