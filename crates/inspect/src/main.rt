// The inspect program: a panel, the log's length, a recorded log and the bytes answered beside it from standard input; to standard output
// its refusal, or the first access that was not asked for, the first answer that is not the controller's own, and whether it passes. The
// controller starts from reset. Started with an argument it takes the character ROM before them, with two the panel is in two halves.
#![tactic(auto)]

use ground::bytes::word;
use inspection::inspect::inspect;
use inspection::look::Findings;
use printed::fill::{character_rom, empty_memory, zeroed};
use printed::input::{byte_in, panel_in, rest_in, start_in};
use report::{finish, has_argument, put_outcome, read_rom, read_whole};
use state::refusal::Refused;
use state::registers::Registers;
use std::io::{Print, Result};

fn put_named(out: &impl Print, what: &str, named: Option<usize>) -> Result<()> {
    match named {
        Some(n) => println!(out; "{what} {n}"),
        None => println!(out; "{what} none"),
    }
}

// Here and below: where a line can't be written the others are tried all the same.
fn put_findings(out: &impl Print, found: Findings) -> Result<()> {
    let unasked = put_named(out, "unasked", found.unasked);
    let wrong = put_named(out, "wrong", found.wrong);
    let verdict = println!(out; "{}", if found.passes() { "passes" } else { "fails" });
    unasked.and(wrong).and(verdict)
}

// The length by `word`, as there is no book here, of which contents' `word_at` reads.
// Behind the panel three bytes, low byte first, say how long the log is; the recorded answers are the rest.
fn inspect_input(dual: bool, rom: &[u8], input: &[u8]) -> std::result::Result<Findings, Refused> {
    let panel = panel_in(input, dual);
    let low = word(byte_in(input, 3), byte_in(input, 4)) as usize;
    let length = low + 65536 * (byte_in(input, 5) as usize);
    let rest = rest_in(input, 6);
    let log = start_in(rest, length);
    let recorded = rest_in(rest, length);
    let mut memory = empty_memory();
    let mut registers = Registers::reset();
    inspect(&mut registers, panel, &mut memory, rom, log, recorded)
}

// A recorded log inspected: its refusal number. There is room for a head of six bytes, 1,048,576 pairs and an answer to each.
fn inspect_log(rt: HostRuntime) -> Result<u8> {
    let mut rom = character_rom();
    read_rom(&mut rt.stdin(), has_argument(&rt, 1), &mut rom)?;
    let mut input = zeroed::<3145734>();
    let end = read_whole(&mut rt.stdin(), &mut input)?;
    let seen = inspect_input(has_argument(&rt, 2), &rom, &input[..end]);
    let told = put_outcome(&rt, &seen);
    // nothing is named on a refusal
    let named = seen.map_or(Ok(()), |found| put_findings(&rt, found));
    named.and(told)
}

fn main(rt: HostRuntime) {
    finish(inspect_log(rt));
}
