// The list program: a character ROM, a panel and a log of any length from standard input; to standard output a line for each pair: its place,
// kind, byte and refusal number, and what it was in words. With an argument the panel is in two halves.
#![tactic(auto)]

use naming::pair::Words;
use printed::fill::empty_memory;
use printed::input::{panel_in, start_in};
use printed::put::Text;
use report::{finish, has_argument, read_whole};
use single::step::access;
use state::panel::Panel;
use state::refusal::Refusal;
use state::registers::Registers;
use state::reply::number;
use std::fmt::Write;
use std::io::{Error, ErrorKind, Read, Result};

// The bytes of a part of the log, 1,024 pairs, and the parts that are read at most: 2^43 bytes.
const PART: usize = 2048;

const PARTS: u64 = 4294967296;

// What became of the log so far: its first refusal, where there was one.
type Outcome = std::result::Result<(), Refusal>;

// Replay's has no registers, which stand in its `Ran`.
// What the log runs on.
#[derive(Drop)]
struct Machine<'a> {
    panel: Panel,
    registers: Registers,
    memory: &'a mut [u8],
    rom: &'a [u8],
}

impl Machine<'_> {
    // The numbers by `Text`, since by `write!` they took more time than the pair itself; the words, which have many forms, by `write!`.
    // The lines of some pairs, the first at the place `from`; a refused pair changes nothing, and the next is taken all the same.
    fn list_pairs(&mut self, part: &[u8], from: usize, text: &mut Text) -> Result<Outcome> {
        let mut first = Ok(());
        for (i, pair) in part.chunks_exact(2).enumerate() {
            let kind = pair[0];
            let byte = pair[1];
            let done = access(
                &mut self.registers,
                self.panel,
                self.memory,
                self.rom,
                kind,
                byte,
            );
            let words = Words {
                kind,
                byte,
                registers: self.registers,
                access: done,
            };
            let outcome = done.map(|_| ());
            // modulo 2^64, which no log reaches
            text.add_decimal(from.wrapping_add(i));
            text.add(b" ");
            text.add_decimal(kind as usize);
            text.add(b" ");
            text.add_hex(byte);
            text.add(b" ");
            text.add_decimal(number(outcome) as usize);
            text.add(b" ");
            write!(text, "{words}")?;
            text.add(b"\n");
            first = first.and(outcome);
        }
        Ok(first)
    }

    // A part of the log listed: its lines have less than 128 characters each, so that they have room.
    fn list_part(&mut self, rt: HostRuntime, part: &[u8], from: usize) -> Result<Outcome> {
        let mut room = [0u8; 131072];
        let mut text = Text {
            room: &mut room,
            at: 0,
        };
        let first = self.list_pairs(part, from, &mut text);
        let end = text.at;
        Print::write_all(&rt, start_in(&room, end))?;
        first
    }

    // A loop of its own in each program that reads parts: no public function has the `requires` that a closure needs.
    // Part after part; the last one is shorter than the others. The refusal of the whole log: `OddLength`, else the first refused pair's.
    fn list_all(&mut self, rt: HostRuntime) -> Result<Outcome> {
        let mut first = Ok(());
        let mut from: usize = 0;
        for _ in 0..PARTS {
            let mut part = [0u8; PART];
            let count = read_whole(&mut rt.stdin(), &mut part)?;
            first = first.and(self.list_part(rt, &part[..count], from)?);
            if count % 2 == 1 {
                return Ok(Err(Refusal::OddLength));
            }
            if count < PART {
                return Ok(first);
            }
            // modulo 2^64, which no log reaches
            from = from.wrapping_add(PART / 2);
        }
        Err(Error::from(ErrorKind::FileTooLarge))
    }
}

// The log listed, and its refusal number; `Invalid` is the panel's.
fn list(rt: HostRuntime) -> Result<u8> {
    let mut rom = [0u8; 1024];
    rt.stdin().read_exact(&mut rom)?;
    // what was not read is 0, as a missing byte counts
    let mut head = [0u8; 3];
    read_whole(&mut rt.stdin(), &mut head)?;
    let panel = panel_in(&head, has_argument(&rt, 1));
    if !panel.valid() {
        return Ok(Refusal::Invalid.number());
    }
    let mut machine = Machine {
        panel,
        registers: Registers::reset(),
        memory: &mut empty_memory(),
        rom: &rom,
    };
    let outcome = machine.list_all(rt)?;
    Ok(number(outcome))
}

fn main(rt: HostRuntime) {
    finish(list(rt));
}
