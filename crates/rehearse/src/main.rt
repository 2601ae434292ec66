// The rehearse program: a panel, a screen's key and a book from standard input; to standard output what running the screen's stream from
// reset came to, and the frame. Started with an argument it takes the character ROM before them, with two the panel is in two halves.
#![tactic(auto)]

ghost use Rattle.std.specs.Prelude.{◌≡◌, length};
ghost use Rattle.printed.specs.Printed.{panel_in, reported};
ghost use Rattle.state.specs.Sizes.{frame_size, valid_size};
ghost use Rattle.rehearse.specs.Rehearsing.{rehearse_text_of};

use contents::bytes::word_at;
use printed::fill::{character_rom, empty_memory, zeroed};
use printed::input::{byte_in, panel_in, rest_in};
use printed::screen::print_rehearsal;
use printed::told::Told;
use rehearsal::rehearse::rehearse;
use report::{finish, has_argument, read_rom, read_whole};
use state::panel::Panel;
use state::registers::Registers;
use std::io::{Print, Result};

// A function, since the frame is a part of an array that its caller owns; no struct, which would be taken apart at once: `rehearse`,
// which docs/PROMISES.md names, takes them one by one.
// A screen rehearsed from reset, as text. There is room for 1,048,576 pairs.
fn print_screen(
    dual: bool,
    input: &[u8],
    panel: Panel,
    memory: &mut [u8],
    rom: &[u8],
    frame: &mut [u8],
    out: &mut [u8],
) -> Told
    requires panel_value { panel ≡ panel_in dual input.now }
    requires memory_len { (length memory.old ≡ 65536) × (length rom.now ≡ 1024) × (length frame.old ≡ valid_size panel (frame_size panel)) }
    ensures { reported result out.new ≡ rehearse_text_of dual rom.now input.now out.old }
{
    let key = word_at(input, 3) as usize;
    let book = rest_in(input, 5);
    let mut room = zeroed::<2097152>();
    let registers = Registers::reset();
    match rehearse(panel, registers, memory, rom, book, key, &mut room, frame) {
        Ok(run) => {
            let count = print_rehearsal(panel, run.pairs, 0, 0, frame, out);
            Told { count, number: 0 }
        }
        Err(refused) => {
            let number = refused.refusal.number();
            let count = print_rehearsal(panel, 0, number, refused.place, frame, out);
            Told { count, number }
        }
    }
}

// The program's whole text at the start of `out`, its length and the screen's number; nothing where the room has another length than
// 196,608. The frame is the part of the largest one that the panel takes.
fn rehearse_text(dual: bool, rom: &[u8], input: &[u8], out: &mut [u8]) -> Told
    requires { length rom.now ≡ 1024 }
    ensures { reported result out.new ≡ rehearse_text_of dual rom.now input.now out.old }
{
    let panel = panel_in(input, dual);
    let bytes = panel.frame_size();
    let mut memory = empty_memory();
    let mut frame = [0u8; 20480];
    print_screen(
        dual,
        input,
        panel,
        &mut memory,
        rom,
        &mut frame[..bytes],
        out,
    )
}

// Its own in each program: what is shown differs, and no public function has the `requires` that a closure needs (docs/PROMISES.md).
// The text printed: the screen's refusal number. One byte past the limit shows that a book is too long.
fn show(rt: HostRuntime) -> Result<u8> {
    let mut rom = character_rom();
    read_rom(&mut rt.stdin(), has_argument(&rt, 1), &mut rom)?;
    let mut input = [0u8; 32774];
    let end = read_whole(&mut rt.stdin(), &mut input)?;
    let mut out = [0u8; 196608];
    let told = rehearse_text(has_argument(&rt, 2), &rom, &input[..end], &mut out);
    let count = told.count;
    rt.write_all(&out[..count])?;
    Ok(told.number)
}

fn main(rt: HostRuntime) {
    finish(show(rt));
}
