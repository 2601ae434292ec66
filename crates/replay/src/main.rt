// The replay program: a character ROM, a panel and a log of any length from standard input; to standard output the answers as they come
// and, where it keeps going, the pairs skipped, then what the run came to and the frame. With one argument the panel is in two halves, with
// two it keeps going, with three both.
#![tactic(auto)]

use controller::run::Ran;
use output::{write_answers, write_frame, write_line, write_skipped};
use playback::play::{begin, close, play, play_on};
use printed::fill::empty_memory;
use printed::input::panel_in;
use report::{finish, has_argument, read_whole};
use state::panel::Panel;
use state::refusal::Refusal;
use state::registers::Registers;
use std::io::{Error, ErrorKind, Read, Result};

// The bytes of a part of the log, 32,768 pairs, and the parts that are read at most: 2^48 bytes.
const PART: usize = 65536;

const PARTS: u64 = 4294967296;

// The list program's has registers too; here they stand in `Ran`.
// What the log runs on.
#[derive(Drop)]
struct Machine<'a> {
    panel: Panel,
    memory: &'a mut [u8],
    rom: &'a [u8],
}

impl Machine<'_> {
    // A part of the log played, its answers written: the run so far.
    fn play_part(&mut self, rt: HostRuntime, past: Ran, part: &[u8]) -> Result<Ran> {
        let mut answers = [0u8; PART / 2];
        let played = play(self.panel, past, self.memory, self.rom, part, &mut answers);
        write_answers(&rt, played.given, &answers)?;
        Ok(played.ran)
    }

    // The same by the ordinary run, with a line for each pair skipped.
    fn go_on(&mut self, rt: HostRuntime, past: Ran, part: &[u8]) -> Result<Ran> {
        let mut answers = [0u8; PART / 2];
        let mut skips = [0usize; PART];
        let played = play_on(
            self.panel,
            past,
            self.memory,
            self.rom,
            part,
            &mut answers,
            &mut skips,
        );
        // where the answers can't be written the pairs skipped are tried all the same
        let answered = write_answers(&rt, played.given, &answers);
        let skipped = write_skipped(&rt, &skips, played.skipped, past.taken);
        answered.and(skipped)?;
        Ok(played.ran)
    }

    // A loop of its own in each program that reads parts: no public function has the `requires` that a closure needs. Nor is `keep` one:
    // that would need a promise that it may be called again, and an `if` is plainer.
    // Part after part, from reset, by the run asked for; the last one is shorter than the others.
    fn play_all(&mut self, rt: HostRuntime, keep: bool) -> Result<Ran> {
        let mut ran = begin(Registers::reset());
        let mut bytes: usize = 0;
        for _ in 0..PARTS {
            let mut part = [0u8; PART];
            let count = read_whole(&mut rt.stdin(), &mut part)?;
            let pairs = &part[..count / 2 * 2];
            ran = if keep {
                self.go_on(rt, ran, pairs)?
            } else {
                self.play_part(rt, ran, pairs)?
            };
            // modulo 2^64, which no log reaches
            bytes = bytes.wrapping_add(count);
            if count < PART {
                let registers = Registers::reset();
                let memory = self.memory.len();
                let rom = self.rom.len();
                return Ok(close(self.panel, registers, memory, rom, bytes, ran));
            }
        }
        Err(Error::from(ErrorKind::FileTooLarge))
    }

    // The run's line, and the rows of its frame; on `Invalid` and `OddLength` the line only.
    fn show(&self, rt: HostRuntime, ran: Ran) -> Result<()> {
        write_line(&rt, ran.taken, ran.answers, ran.number, ran.place)?;
        if let Ok(Refusal::Invalid | Refusal::OddLength) = Refusal::try_from(ran.number) {
            return Ok(());
        }
        write_frame(&rt, self.panel, ran.registers, self.memory, self.rom)
    }
}

// The log played and shown, and its refusal number.
fn replay(rt: HostRuntime) -> Result<u8> {
    let mut rom = [0u8; 1024];
    rt.stdin().read_exact(&mut rom)?;
    // what was not read is 0, as a missing byte counts
    let mut head = [0u8; 3];
    read_whole(&mut rt.stdin(), &mut head)?;
    // `dual`, `keep going` or both: one, two or three words
    let keep = has_argument(&rt, 2);
    let one = has_argument(&rt, 1) & !keep;
    let three = has_argument(&rt, 3) & !has_argument(&rt, 4);
    let mut machine = Machine {
        panel: panel_in(&head, one | three),
        memory: &mut empty_memory(),
        rom: &rom,
    };
    let ran = machine.play_all(rt, keep)?;
    machine.show(rt, ran)?;
    Ok(ran.number)
}

fn main(rt: HostRuntime) {
    finish(replay(rt));
}
