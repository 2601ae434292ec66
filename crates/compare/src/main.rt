// The compare program: a panel and two logs from standard input; what differs when both have run to standard output. Started with an
// argument it takes the character ROM before them, with two the panel is in two halves.
#![tactic(auto)]

use comparison::compare::{Compared, compare};
use ground::bytes::word;
use printed::fill::{character_rom, empty_memory};
use printed::input::{byte_in, number_in, panel_in, rest_in, start_in};
use printed::put::Text;
use report::{finish, has_argument, read_rom, read_whole};
use std::io::Result;

// The bytes of a log that count.
const LIMIT: usize = 16384;

// A register's name, by its place in the order of docs/FORMATS.md.
fn name(register: usize) -> &'static str {
    match register {
        0 => "cursor-x",
        1 => "cursor-y",
        2 => "offset",
        3 => "pointer",
        4 => "text-home",
        5 => "graphic-home",
        6 => "text-area",
        7 => "graphic-area",
        8 => "combination",
        9 => "external",
        10 => "display",
        11 => "cursor-height",
        12 => "auto",
        13 => "pending",
        14 => "latch",
        15 => "error",
        _ => "phase",
    }
}

// By `Text`, and not by `println!`: there may be 65,536 of these lines, and of the others a few.
// An address at which the memories differ, with the byte in each.
fn put_address(rt: HostRuntime, address: usize, one: usize, two: usize) -> Result<()> {
    let mut room = [0u8; 18];
    let mut text = Text {
        room: &mut room,
        at: 0,
    };
    text.add(b"memory ");
    text.add_hex_word((address % 65536) as u16);
    text.add(b" ");
    text.add_hex((one % 256) as u8);
    text.add(b" ");
    text.add_hex((two % 256) as u8);
    text.add(b"\n");
    let end = text.at;
    Print::write_all(&rt, start_in(&room, end))
}

// A flat list, as `compare`, which docs/PROMISES.md names, fills it.
// What differs and its two values, three numbers each: so many entries of memory, then those of registers. Where a line can't be written
// the others are tried all the same.
fn put_apart(rt: HostRuntime, apart: Compared, list: &[usize]) -> Result<()> {
    let mut written = println!(rt; "refusal 0 place 0 log 0");
    for entry in list.chunks_exact(3).take(apart.memory) {
        let address = number_in(entry, 0);
        let line = put_address(rt, address, number_in(entry, 1), number_in(entry, 2));
        written = written.and(line);
    }
    for entry in list
        .chunks_exact(3)
        .skip(apart.memory)
        .take(apart.registers)
    {
        let line = println!(rt; "{} {} {}", name(entry[0]), entry[1], entry[2]);
        written = written.and(line);
    }
    written.and(println!(rt; "dots {}", apart.dots))
}

// The length by `word`, as there is no book here, of which contents' `word_at` reads.
// Behind the panel two bytes, low byte first, say how long log one is; log two is the rest.
fn show(rt: HostRuntime, rom: &[u8], input: &[u8]) -> Result<u8> {
    let panel = panel_in(input, has_argument(&rt, 2));
    let length = word(byte_in(input, 3), byte_in(input, 4)) as usize;
    let logs = rest_in(input, 5);
    let one = start_in(logs, length.min(LIMIT));
    let two = start_in(rest_in(logs, length), LIMIT);
    let mut first = empty_memory();
    let mut second = empty_memory();
    let mut list = [0usize; 196659];
    match compare(panel, &mut first, &mut second, rom, one, two, &mut list) {
        Ok(apart) => put_apart(rt, apart, &list).and(Ok(0)),
        Err(refused) => {
            let number = refused.number;
            let place = refused.place;
            let log = refused.log;
            println!(rt; "refusal {number} place {place} log {log}").and(Ok(number))
        }
    }
}

// Its own in each program: what is shown differs, and no public function has the `requires` that a closure needs (docs/PROMISES.md).
// Two logs run and compared: the refusal number.
fn compare_logs(rt: HostRuntime) -> Result<u8> {
    let mut rom = character_rom();
    read_rom(&mut rt.stdin(), has_argument(&rt, 1), &mut rom)?;
    let mut input = [0u8; 81924];
    let end = read_whole(&mut rt.stdin(), &mut input)?;
    show(rt, &rom, &input[..end])
}

fn main(rt: HostRuntime) {
    finish(compare_logs(rt));
}
