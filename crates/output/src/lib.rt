// What the programs write of a run: its line, the pairs it skipped, its answers and its frame's rows.
#![tactic(auto)]

use display::frame::paint;
use printed::fill::zeroed;
use printed::input::start_in;
use printed::parts::{print_answers, print_line, print_refusal, print_rows};
use state::panel::Panel;
use state::registers::Registers;
use std::io::{Print, Result};

// Bytes for the largest frame's rows.
const ROWS: usize = 196608;

// What is printed at a room's start, to standard output or standard error.
fn write_text<P: Print, F: FnOnce(&mut [u8]) -> usize>(
    to: &P,
    room: &mut [u8],
    print: F,
) -> Result<()>
    requires { F.IsAlwaysCallable print }
{
    let end = print(room);
    to.write_all(start_in(room, end))
}

// One by one: `Ran`, which holds them, is controller's, on which this crate does not stand (crates.txt).
/// The run's line, to standard output or standard error: pairs taken, answers, refusal number and place.
pub fn write_line(
    to: &impl Print,
    pairs: usize,
    answers: usize,
    number: u8,
    place: usize,
) -> Result<()> {
    write_text(
        to,
        &mut [0; 112],
        |room| print_line(pairs, answers, number, place, room),
    )
}

// A count beside its list, here and below: it may be past the list's end, where `&skips[..2 * count]` would stop each caller; and
// `print_answers`, which docs/PROMISES.md names, takes both.
/// The lines of the first `count` pairs skipped, two numbers of the list each: refusal number, and place in a part of the log that begins
/// `before` pairs behind the log's start, from which the line counts.
pub fn write_skipped(to: &impl Print, skips: &[usize], count: usize, before: usize) -> Result<()> {
    for skip in skips.chunks_exact(2).take(count) {
        let number = (skip[0] % 256) as u8;
        // modulo 2^64, which no log reaches
        let place = before.wrapping_add(skip[1]);
        write_text(to, &mut [0; 56], |room| print_refusal(number, place, room))?;
    }
    Ok(())
}

/// The lines of the first `given` answers, at most 65,536.
pub fn write_answers(to: &impl Print, given: usize, answers: &[u8]) -> Result<()> {
    // no lines, no room: 196,608 bytes of 0 for each part took a quarter of the time of a log that was refused at its start
    if given == 0 {
        return Ok(());
    }
    write_text(
        to,
        &mut zeroed::<ROWS>(),
        |room| print_answers(given, answers, room),
    )
}

/// A frame's rows; nothing where it is not of its panel's size.
pub fn write_rows(to: &impl Print, panel: Panel, frame: &[u8]) -> Result<()> {
    write_text(
        to,
        &mut zeroed::<ROWS>(),
        |room| print_rows(panel, frame, room),
    )
}

// Beside log_program and xbm, which do other things with the frame: a function over a closure would be no shorter than the four lines.
// Panel, registers, memory and ROM one by one: only `paint` takes them, and so.
/// The rows of the frame painted; of one that painting refuses, blank.
pub fn write_frame(
    to: &impl Print,
    panel: Panel,
    registers: Registers,
    memory: &[u8],
    rom: &[u8],
) -> Result<()> {
    let size = panel.frame_size();
    let mut room = [0u8; 20480];
    let frame = &mut room[..size];
    // the refusal is told by the run's line; here it leaves the frame blank, and it is written so
    let _ = paint(panel, registers, memory, rom, frame);
    write_rows(to, panel, frame)
}
