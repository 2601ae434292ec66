// The swaps program: a panel, a screen's key and a book from standard input; to standard output its refusal, then for each operation and the
// one behind it whether they may change places. With an argument the panel is in two halves.
#![tactic(auto)]

use book::check::check;
use contents::bytes::word_at;
use order::swap::{Swap, may_swap};
use printed::input::{panel_in, rest_in};
use report::{finish, has_argument, put_outcome, read_whole};
use state::panel::Panel;
use std::io::{Print, Result};

// Each two are asked for by themselves: `may_swap`, which docs/PROMISES.md names, takes one place at a time.
// A line for each operation and the one behind it; where one can't be written the others are tried all the same. A body has no more
// operations than the book has bytes.
fn put_swaps(out: &impl Print, panel: Panel, book: &[u8], key: usize) -> Result<()> {
    let mut written = Ok(());
    for i in 0..book.len() {
        let line = match may_swap(panel, book, key, i) {
            Ok(Swap::May) => println!(out; "{i} {} may", i + 1),
            Ok(Swap::Stays) => println!(out; "{i} {} stays", i + 1),
            Ok(Swap::NoTwo) | Err(_) => break,
        };
        written = written.and(line);
    }
    written
}

// The screen's refusal number, its line and the swaps printed. One byte past the limit shows that a book is too long.
fn show(rt: HostRuntime) -> Result<u8> {
    let mut input = [0u8; 32774];
    let end = read_whole(&mut rt.stdin(), &mut input)?;
    let all = &input[..end];
    let panel = panel_in(all, has_argument(&rt, 1));
    let key = word_at(all, 3) as usize;
    let book = rest_in(all, 5);
    let told = put_outcome(&rt, &check(panel, book, key));
    put_swaps(&rt, panel, book, key).and(told)
}

fn main(rt: HostRuntime) {
    finish(show(rt));
}
