// The list_writers program: a character ROM, a panel, a first and a last address and a log of any length from standard input; to standard
// output a line for each store into that stretch, then how many, then the refusal. With an argument the panel is in two halves.
#![tactic(auto)]

use ground::bytes::word;
use printed::fill::empty_memory;
use printed::input::{number_in, panel_in, start_in};
use printed::put::Text;
use report::{finish, has_argument, put_outcome, read_whole};
use state::panel::Panel;
use state::refusal::{Refusal, Refused};
use state::registers::Registers;
use std::io::{Error, ErrorKind, Read, Result};
use writers::list::list;

// The bytes of a part of the log, 512 pairs, and the parts that are read at most: 2^42 bytes.
const PART: usize = 1024;

const PARTS: u64 = 4294967296;

// A flat list, as `writers::list::list`, which docs/PROMISES.md names, fills it: of each store its pair, its address, the byte before and the
// byte after.
const ENTRY: usize = 4;

// The stores listed, and the refusal at which the list ends.
#[derive(Clone, Copy, Debug, PartialEq, Eq)]
struct Told {
    stores: usize,
    end: std::result::Result<(), Refused>,
}

// By `Text`, and not by `write!`, with which the program took 3.5 times as long: a pair may have 80 stores.
// The lines of some stores, at most 1,024, each of less than 64 characters; `past` pairs are before the part that they are of.
fn put_lines(rt: HostRuntime, entries: &[usize], past: usize) -> Result<()> {
    let mut room = [0u8; 65536];
    let mut text = Text {
        room: &mut room,
        at: 0,
    };
    for entry in entries.chunks_exact(ENTRY) {
        text.add(b"pair ");
        // modulo 2^64, which no log reaches
        text.add_decimal(past.wrapping_add(number_in(entry, 0)));
        text.add(b" address ");
        text.add_hex_word((number_in(entry, 1) % 65536) as u16);
        text.add(b" before ");
        text.add_hex((number_in(entry, 2) % 256) as u8);
        text.add(b" after ");
        text.add_hex((number_in(entry, 3) % 256) as u8);
        text.add(b"\n");
    }
    let end = text.at;
    Print::write_all(&rt, start_in(&room, end))
}

fn put_entries(rt: HostRuntime, entries: &[usize], past: usize) -> Result<()> {
    for stores in entries.chunks(1024 * ENTRY) {
        put_lines(rt, stores, past)?;
    }
    Ok(())
}

// A loop of its own in each program that reads parts: no public function has the `requires` that a closure needs.
// The log listed part after part, from reset, each into a room that holds 80 stores for each of its pairs; the last part is shorter than the
// others. Where the whole log's length is odd its whole pairs are the place.
fn list_all(rt: HostRuntime, panel: Panel, rom: &[u8], first: u16, last: u16) -> Result<Told> {
    let mut memory = empty_memory();
    let mut room = [0usize; 163840];
    let mut registers = Registers::reset();
    let mut stores: usize = 0;
    let mut past: usize = 0;
    for _ in 0..PARTS {
        let mut part = [0u8; PART];
        let count = read_whole(&mut rt.stdin(), &mut part)?;
        let pairs = count / 2;
        let listed = list(
            panel,
            registers,
            &mut memory,
            rom,
            &part[..2 * pairs],
            first,
            last,
            &mut room,
        );
        let end = room.len().min(listed.count.saturating_mul(ENTRY));
        put_entries(rt, &room[..end], past)?;
        registers = listed.registers;
        // both sums modulo 2^64, which no log reaches
        stores = stores.wrapping_add(listed.count);
        past = past.wrapping_add(pairs);
        if let Err(refused) = listed.end {
            // its place in its part is not told
            let end = Err(Refused::from(refused.refusal));
            return Ok(Told { stores, end });
        }
        if count % 2 == 1 {
            let refusal = Refusal::OddLength;
            let end = Err(Refused {
                refusal,
                place: past,
            });
            return Ok(Told { stores, end });
        }
        if count < PART {
            let end = Ok(());
            return Ok(Told { stores, end });
        }
    }
    Err(Error::from(ErrorKind::FileTooLarge))
}

// The log listed, its end told, and its refusal number.
fn list_log(rt: HostRuntime) -> Result<u8> {
    let mut rom = [0u8; 1024];
    rt.stdin().read_exact(&mut rom)?;
    // what was not read is 0, as a missing byte counts
    let mut head = [0u8; 7];
    read_whole(&mut rt.stdin(), &mut head)?;
    let panel = panel_in(&head, has_argument(&rt, 1));
    let first = word(head[3], head[4]);
    let last = word(head[5], head[6]);
    let told = list_all(rt, panel, &rom, first, last)?;
    // where a line can't be written the other is tried all the same
    let stores = println!(rt; "stores {}", told.stores);
    stores.and(put_outcome(&rt, &told.end))
}

fn main(rt: HostRuntime) {
    finish(list_log(rt));
}
