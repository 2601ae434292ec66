// The write_asking program: a panel, a screen's key and a book from standard input; to standard output the log that shows the screen and
// reads status before each write, or to standard error its refusal. With an argument the panel is in two halves.
#![tactic(auto)]

use asking::asking::write_asking;
use contents::bytes::word_at;
use printed::fill::zeroed;
use printed::input::{byte_in, panel_in, rest_in};
use report::{finish, has_argument, put_refused, read_whole};
use std::io::{Print, Result};

// The panel and the pairs written, or the refusal's line: the refusal number. There is as much room as `write` has.
fn write_input(rt: HostRuntime, dual: bool, input: &[u8]) -> Result<u8> {
    let panel = panel_in(input, dual);
    let key = word_at(input, 3) as usize;
    let book = rest_in(input, 5);
    let mut room = zeroed::<2097152>();
    match write_asking(panel, book, key, &mut room) {
        Ok(pairs) => {
            let end = pairs.saturating_mul(2).min(room.len());
            rt.write_all(&[byte_in(input, 0), byte_in(input, 1), byte_in(input, 2)])?;
            rt.write_all(&room[..end])?;
            Ok(0)
        }
        Err(refused) => put_refused(&rt.stderr(), refused),
    }
}

// Its own in each program: what is shown differs, and no public function has the `requires` that a closure needs (docs/PROMISES.md).
// One byte past the limit shows that a book is too long.
fn write_screen(rt: HostRuntime) -> Result<u8> {
    let mut input = [0u8; 32774];
    let end = read_whole(&mut rt.stdin(), &mut input)?;
    write_input(rt, has_argument(&rt, 1), &input[..end])
}

fn main(rt: HostRuntime) {
    finish(write_screen(rt));
}
