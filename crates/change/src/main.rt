// The change program: a panel, the keys of two screens and a book from standard input; to standard output the pairs that turn the first
// into the second on a controller that has just run the first one's stream, or to standard error its refusal. With an argument the panel
// is in two halves.
#![tactic(auto)]

use contents::bytes::word_at;
use difference::write::write_change;
use printed::fill::zeroed;
use printed::input::{panel_in, rest_in};
use report::{finish, has_argument, put_refused, read_whole};
use std::io::{Print, Result};

// The pairs written, or the refusal's line: the refusal number. There is room for the longest short stream: 24,064 bytes differ and there
// is a cursor.
fn write_input(rt: HostRuntime, dual: bool, input: &[u8]) -> Result<u8> {
    let panel = panel_in(input, dual);
    let a = word_at(input, 3) as usize;
    let b = word_at(input, 5) as usize;
    let book = rest_in(input, 7);
    let mut room = zeroed::<240652>();
    match write_change(panel, book, a, b, &mut room) {
        Ok(pairs) => {
            let end = pairs.saturating_mul(2).min(room.len());
            rt.write_all(&room[..end])?;
            Ok(0)
        }
        Err(refused) => put_refused(&rt.stderr(), refused),
    }
}

// Its own in each program: what is shown differs, and no public function has the `requires` that a closure needs (docs/PROMISES.md).
// One byte past the limit shows that a book is too long.
fn change(rt: HostRuntime) -> Result<u8> {
    let mut input = [0u8; 32776];
    let end = read_whole(&mut rt.stdin(), &mut input)?;
    write_input(rt, has_argument(&rt, 1), &input[..end])
}

fn main(rt: HostRuntime) {
    finish(change(rt));
}
