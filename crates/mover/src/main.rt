// The mover: a direction, C, L, w and a book from standard input; to standard output the book in the other form, or to standard error its
// refusal. With an argument the panel is in two halves.
#![tactic(auto)]

use layout::moves::{move_down, move_up};
use printed::input::{byte_in, panel_in, rest_in};
use report::{finish, has_argument, put_refused, read_whole};
use state::refusal::Refused;
use std::io::Print;

// Direction 0 is down, any other byte up, which asks for the panel.
fn moved(dual: bool, input: &[u8], out: &mut [u8]) -> Result<usize, Refused> {
    let book = rest_in(input, 4);
    if byte_in(input, 0) == 0 {
        return move_down(book, out);
    }
    move_up(panel_in(rest_in(input, 1), dual), book, out)
}

// The moved book written, or the refusal's line: the refusal number. One byte past the limit shows that a book is too long; no moved book
// is longer than the output.
fn move_book(rt: HostRuntime) -> std::io::Result<u8> {
    let mut input = [0u8; 32773];
    let end = read_whole(&mut rt.stdin(), &mut input)?;
    let mut out = [0u8; 32768];
    let dual = has_argument(&rt, 1);
    match moved(dual, &input[..end], &mut out) {
        Ok(size) => {
            rt.write_all(&out[..size.min(32768)])?;
            Ok(0)
        }
        Err(refused) => put_refused(&rt.stderr(), refused),
    }
}

fn main(rt: HostRuntime) {
    finish(move_book(rt));
}
