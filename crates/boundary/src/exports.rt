// The functions that C calls: every input gets a reply. Each body is written out, here and in following and writing: for one of them all a
// closure would have to be lent registers and counts beside it and answer u8, u16 or u32.
ghost use Rattle.std.specs.Prelude.{◌≡◌};
ghost use Rattle.image.specs.Door.{panel_of};
ghost use Rattle.boundary.specs.Exports.{access_end, access_bytes, run_end, stopping_bytes, paint_end, paint_bytes, layers_word, layers_bytes, reset_end, reset_bytes, run_on_end, run_on_bytes};

use controller::run::{run, run_stopping};
use display::frame::paint;
use ground::bytes::word;
use image::door::{count, count_on, enter, keep, marked};
use image::image::encode;
use sight::seen::layers;
use single::step::access;
use state::refusal::Refusal;
use state::registers::Registers;
use state::reply::number;

/// One access: the number in the low byte, the byte read in the high one.
#[tactic(auto, unfolding(crate::specs::Exports::access_bytes))]
#[unsafe(no_mangle)]
pub extern "C" fn t6963c_access(
    columns: usize,
    lines: usize,
    width: usize,
    dual: u8,
    registers: &mut [u8],
    memory: &mut [u8],
    rom: &[u8],
    kind: u8,
    byte: u8,
) -> u16
    ensures { access_end result registers.new memory.new ≡ access_bytes (panel_of columns lines width dual) registers.old memory.old rom.now (record { kind = kind; byte = byte }) }
{
    let panel = marked(columns, lines, width, dual);
    match enter(panel, true, registers) {
        Ok(state) => {
            let mut after = state;
            match access(&mut after, panel, memory, rom, kind, byte) {
                Ok(answer) => {
                    keep(0, after, registers);
                    word(0, answer.unwrap_or(0))
                }
                Err(refusal) => {
                    keep(refusal.number(), after, registers);
                    word(refusal.number(), 0)
                }
            }
        }
        Err(refusal) => word(refusal.number(), 0),
    }
}

/// At most `limit` pairs of a log, refused ones skipped and listed: the number. `counts` becomes place, pairs taken, answers, pairs listed.
#[tactic(auto, unfolding(crate::specs::Exports::run_on_bytes))]
#[unsafe(no_mangle)]
pub extern "C" fn t6963c_run(
    columns: usize,
    lines: usize,
    width: usize,
    dual: u8,
    registers: &mut [u8],
    memory: &mut [u8],
    rom: &[u8],
    log: &[u8],
    limit: usize,
    answers: &mut [u8],
    skips: &mut [usize],
    counts: &mut [usize],
) -> u8
    ensures { run_on_end result registers.new memory.new answers.new skips.new counts.new ≡ run_on_bytes (panel_of columns lines width dual) registers.old memory.old rom.now log.now limit answers.old skips.old counts.old }
{
    let panel = marked(columns, lines, width, dual);
    let four = counts.len() == 4;
    match enter(panel, four, registers) {
        Ok(state) => {
            let gone = run(panel, state, memory, rom, log, limit, answers, skips);
            let ran = gone.ran;
            let after = ran.registers;
            keep(ran.number, after, registers);
            count_on(
                ran.number,
                ran.place,
                ran.taken,
                ran.answers,
                gone.skipped,
                counts,
            );
            ran.number
        }
        Err(refusal) => refusal.number(),
    }
}

/// At most `limit` pairs of a log, up to the first refused: the number. `counts` becomes place, pairs taken, answers.
#[tactic(auto, unfolding(crate::specs::Exports::stopping_bytes))]
#[unsafe(no_mangle)]
pub extern "C" fn t6963c_run_stopping(
    columns: usize,
    lines: usize,
    width: usize,
    dual: u8,
    registers: &mut [u8],
    memory: &mut [u8],
    rom: &[u8],
    log: &[u8],
    limit: usize,
    answers: &mut [u8],
    counts: &mut [usize],
) -> u8
    ensures { run_end result registers.new memory.new answers.new counts.new ≡ stopping_bytes (panel_of columns lines width dual) registers.old memory.old rom.now log.now limit answers.old counts.old }
{
    let panel = marked(columns, lines, width, dual);
    let counted = counts.len() == 3;
    match enter(panel, counted, registers) {
        Ok(state) => {
            let ran = run_stopping(panel, state, memory, rom, log, limit, answers);
            let after = ran.registers;
            keep(ran.number, after, registers);
            count(ran.number, ran.place, ran.taken, ran.answers, counts);
            ran.number
        }
        Err(refusal) => refusal.number(),
    }
}

/// The frame: the number.
#[tactic(auto, unfolding(crate::specs::Exports::paint_bytes))]
#[unsafe(no_mangle)]
pub extern "C" fn t6963c_paint(
    columns: usize,
    lines: usize,
    width: usize,
    dual: u8,
    registers: &[u8],
    memory: &[u8],
    rom: &[u8],
    frame: &mut [u8],
) -> u8
    ensures { paint_end result frame.new ≡ paint_bytes (panel_of columns lines width dual) registers.now memory.now rom.now frame.old }
{
    let panel = marked(columns, lines, width, dual);
    match enter(panel, true, registers) {
        Ok(state) => number(paint(panel, state, memory, rom, frame)),
        Err(refusal) => refusal.number(),
    }
}

// Four bytes as one number, the first the lowest.
fn layers_word(number: u8, text: u8, graphic: u8, shown: u8) -> u32
    ensures { result ≡ layers_word number text graphic shown }
{
    u32::from_le_bytes([number, text, graphic, shown])
}

/// The layers of a cell row: the number in the low byte, then text, graphic and what comes of them.
#[tactic(auto, unfolding(crate::specs::Exports::layers_bytes))]
#[unsafe(no_mangle)]
pub extern "C" fn t6963c_layers(
    columns: usize,
    lines: usize,
    width: usize,
    dual: u8,
    registers: &[u8],
    memory: &[u8],
    rom: &[u8],
    row: usize,
    column: usize,
) -> u32
    ensures { result ≡ layers_bytes (panel_of columns lines width dual) registers.now memory.now rom.now row column }
{
    let panel = marked(columns, lines, width, dual);
    match enter(panel, true, registers) {
        Ok(state) => match layers(panel, state.display, memory, rom, row, column) {
            Ok(seen) => layers_word(0, seen.text, seen.graphic, seen.shown),
            Err(refusal) => layers_word(refusal.number(), 0, 0, 0),
        },
        Err(refusal) => layers_word(refusal.number(), 0, 0, 0),
    }
}

/// The reset state.
#[tactic(auto, unfolding(crate::specs::Exports::reset_bytes))]
#[unsafe(no_mangle)]
pub extern "C" fn t6963c_reset(registers: &mut [u8]) -> u8
    ensures { reset_end result registers.new ≡ reset_bytes registers.old }
{
    if registers.len() != 25 {
        return Refusal::WrongLength.number();
    }
    encode(Registers::reset(), registers);
    0
}
