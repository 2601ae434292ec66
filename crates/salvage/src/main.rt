// The salvage program: C, L, w and a book from standard input; to standard output the saved book, and to standard error the bytes kept and
// dropped of each screen, or the refusal. With an argument the panel is in two halves.
#![tactic(auto)]

use contents::open::open;
use layout::saved::Salvaged;
use layout::saving::salvage;
use printed::input::{panel_in, rest_in};
use report::{finish, has_argument, put_refused, read_whole};
use std::io::{Print, Result};

// The book is opened once more for its keys, which `salvage` (docs/PROMISES.md) does not answer: what was salvaged opens.
// A line for each screen, by its number or identity; where one can't be written the others are tried all the same.
fn put_report(out: &impl Print, book: &[u8], salvaged: Salvaged) -> Result<()> {
    let mut written = Ok(());
    if let Ok(spans) = open(book) {
        for (span, saved) in spans.all().iter().zip(salvaged.all()) {
            let key = span.key;
            let kept = saved.kept;
            let dropped = saved.dropped;
            written = written.and(println!(out; "screen {key} kept {kept} dropped {dropped}"));
        }
    }
    written
}

// The saved book written and told of, or the refusal's line: the refusal number. One byte past the limit shows that a book is too long; no
// saved book is longer than the output.
fn save_book(rt: HostRuntime) -> Result<u8> {
    let mut input = [0u8; 32772];
    let end = read_whole(&mut rt.stdin(), &mut input)?;
    let all = &input[..end];
    let panel = panel_in(all, has_argument(&rt, 1));
    let book = rest_in(all, 3);
    let mut out = [0u8; 32768];
    match salvage(panel, book, &mut out) {
        Ok(salvaged) => {
            rt.write_all(&out[..salvaged.size.min(32768)])?;
            put_report(&rt.stderr(), book, salvaged)?;
            Ok(0)
        }
        Err(refused) => put_refused(&rt.stderr(), refused),
    }
}

fn main(rt: HostRuntime) {
    finish(save_book(rt));
}
