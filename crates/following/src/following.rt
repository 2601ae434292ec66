// What a viewer in C calls: a pair or a log followed, the flagged rows painted. Bodies beside those of crates/boundary, as is said there.
ghost use Rattle.std.specs.Prelude.{◌≡◌};
ghost use Rattle.image.specs.Door.{panel_of};
ghost use Rattle.following.specs.Following.{follow_end, follow_bytes, follow_run_end, follow_run_bytes, refresh_end, refresh_bytes};

use flags::follow::access;
use flags::refresh::refresh;
use ground::bytes::word;
use image::door::{count_on, enter, keep, marked};
use state::reply::number;
use watch::run::run;

/// One access that keeps the flags: the number in the low byte, the byte read in the high one.
#[tactic(auto, unfolding(crate::specs::Following::follow_bytes))]
#[unsafe(no_mangle)]
pub extern "C" fn t6963c_follow(
    columns: usize,
    lines: usize,
    width: usize,
    dual: u8,
    registers: &mut [u8],
    memory: &mut [u8],
    rom: &[u8],
    kind: u8,
    byte: u8,
    rows: &mut [u8],
) -> u16
    ensures { follow_end result registers.new memory.new rows.new ≡ follow_bytes (panel_of columns lines width dual) registers.old memory.old rom.now (record { kind = kind; byte = byte }) rows.old }
{
    let panel = marked(columns, lines, width, dual);
    match enter(panel, true, registers) {
        Ok(state) => {
            let mut after = state;
            match access(&mut after, panel, memory, rom, kind, byte, rows) {
                Ok(answer) => {
                    keep(0, after, registers);
                    word(0, answer.unwrap_or(0))
                }
                Err(refusal) => {
                    keep(refusal.number(), after, registers);
                    word(refusal.number(), 0)
                }
            }
        }
        Err(refusal) => word(refusal.number(), 0),
    }
}

/// At most `limit` pairs of a log, refused ones skipped and listed, the flags kept: the number. `counts` becomes place, pairs taken, answers,
/// pairs listed.
#[tactic(auto, unfolding(crate::specs::Following::follow_run_bytes))]
#[unsafe(no_mangle)]
pub extern "C" fn t6963c_follow_run(
    columns: usize,
    lines: usize,
    width: usize,
    dual: u8,
    registers: &mut [u8],
    memory: &mut [u8],
    rom: &[u8],
    log: &[u8],
    limit: usize,
    answers: &mut [u8],
    skips: &mut [usize],
    counts: &mut [usize],
    rows: &mut [u8],
) -> u8
    ensures { follow_run_end result registers.new memory.new answers.new skips.new counts.new rows.new ≡ follow_run_bytes (panel_of columns lines width dual) registers.old memory.old rom.now log.now limit answers.old skips.old counts.old rows.old }
{
    let panel = marked(columns, lines, width, dual);
    let four = counts.len() == 4;
    match enter(panel, four, registers) {
        Ok(state) => {
            let gone = run(panel, state, memory, rom, log, limit, answers, skips, rows);
            let ran = gone.ran;
            let after = ran.registers;
            keep(ran.number, after, registers);
            count_on(
                ran.number,
                ran.place,
                ran.taken,
                ran.answers,
                gone.skipped,
                counts,
            );
            ran.number
        }
        Err(refusal) => refusal.number(),
    }
}

/// The flagged rows painted and the flags cleared: the number.
#[tactic(auto, unfolding(crate::specs::Following::refresh_bytes))]
#[unsafe(no_mangle)]
pub extern "C" fn t6963c_refresh(
    columns: usize,
    lines: usize,
    width: usize,
    dual: u8,
    registers: &[u8],
    memory: &[u8],
    rom: &[u8],
    frame: &mut [u8],
    rows: &mut [u8],
) -> u8
    ensures { refresh_end result frame.new rows.new ≡ refresh_bytes (panel_of columns lines width dual) registers.now memory.now rom.now frame.old rows.old }
{
    let panel = marked(columns, lines, width, dual);
    match enter(panel, true, registers) {
        Ok(state) => number(refresh(panel, state, memory, rom, frame, rows)),
        Err(refusal) => refusal.number(),
    }
}
