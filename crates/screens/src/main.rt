// The screens program: C, L, w and a book from standard input; to standard output its form, its screens and their operations, or its refusal.
// With an argument the panel is in two halves.
#![tactic(auto)]

use book::operation::{Placed, read};
use contents::bytes::byte_at;
use contents::open::open;
use contents::spans::{Span, Spans};
use printed::input::{panel_in, rest_in, start_in};
use report::{finish, has_argument, put_refused, read_whole};
use state::panel::Panel;
use state::refusal::{Refusal, Refused};
use state::registers::Combination;
use std::io::{Print, Result};

// Bytes of the book, as numbers. Here and below: where something can't be written the rest is tried all the same.
fn put_bytes(out: &impl Print, bytes: &[u8]) -> Result<()> {
    let mut written = Ok(());
    for byte in bytes {
        written = written.and(print!(out; " {byte}"));
    }
    written.and(println!(out; ""))
}

// An operation on a line.
fn put_operation(out: &impl Print, book: &[u8], placed: Placed) -> Result<()> {
    match placed {
        Placed::Text(line, column, from, n) => {
            let place = print!(out; "text {line} {column}");
            place.and(put_bytes(out, start_in(rest_in(book, from), n as usize)))
        }
        Placed::Rectangle(top, column, height, width, value) => {
            println!(out; "rectangle {top} {column} {height} {width} {value}")
        }
        Placed::Dot(x, y, on) => println!(out; "dot {x} {y} {}", on as u8),
        Placed::Glyph(code, from) => {
            let which = print!(out; "glyph {code}");
            which.and(put_bytes(out, start_in(rest_in(book, from), 8)))
        }
        Placed::Cursor(line, column, height, blink) => {
            println!(out; "cursor {line} {column} {height} {}", blink as u8)
        }
        // named here, as the rest of the line is: this program does not rest on naming, which has the same four
        Placed::Combine(Combination::Or) => println!(out; "mode OR"),
        Placed::Combine(Combination::Exor) => println!(out; "mode EXOR"),
        Placed::Combine(Combination::And) => println!(out; "mode AND"),
        Placed::Combine(Combination::Attribute) => println!(out; "mode attribute"),
    }
}

// A screen and its operations, no more than its body has bytes, to the first that is faulty.
fn put_screen(out: &impl Print, panel: Panel, book: &[u8], span: Span) -> Result<()> {
    let key = span.key;
    let start = span.start;
    let end = span.end;
    let mut written = println!(out; "screen {key} {start} {end}");
    let mut at = start;
    // no iterator of operations: it would yield Results, tested in each round as here, and save `at = standing.next` alone; the bound makes the
    // walk end, without a measure of its own
    for _ in start..end {
        match read(panel, book, at, end) {
            Ok(Some(standing)) => {
                let place = print!(out; "{at} ");
                let operation = put_operation(out, book, standing.placed);
                written = written.and(place).and(operation);
                at = standing.next;
            }
            Ok(None) => break,
            Err(_) => {
                let code = byte_at(book, at);
                return written.and(println!(out; "{at} faulty {code}"));
            }
        }
    }
    written
}

fn put_screens(out: &impl Print, panel: Panel, book: &[u8], spans: Spans) -> Result<()> {
    let form = if spans.two { 2 } else { 1 };
    let count = spans.count;
    let mut written = println!(out; "form {form} screens {count}");
    for span in spans.all() {
        written = written.and(put_screen(out, panel, book, *span));
    }
    written
}

// The panel is judged first, then the book; a faulty operation is listed and refuses nothing.
fn opened(panel: Panel, book: &[u8]) -> std::result::Result<Spans, Refused> {
    if !panel.valid() {
        return Err(Refusal::Invalid.into());
    }
    open(book)
}

// The screens listed, or the refusal's line: the refusal number. One byte past the limit shows that a book is too long.
fn list_screens(rt: HostRuntime) -> Result<u8> {
    let mut input = [0u8; 32772];
    let end = read_whole(&mut rt.stdin(), &mut input)?;
    let all = &input[..end];
    let panel = panel_in(all, has_argument(&rt, 1));
    let book = rest_in(all, 3);
    match opened(panel, book) {
        Ok(spans) => put_screens(&rt, panel, book, spans).and(Ok(0)),
        Err(refused) => put_refused(&rt, refused),
    }
}

fn main(rt: HostRuntime) {
    finish(list_screens(rt));
}
