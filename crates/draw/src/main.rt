// The draw program: a panel, a screen's key, a phase and a book from standard input; to standard output the screen's refusal and its
// picture. Started with an argument it takes the character ROM before them, with a second one the panel is in two halves.
#![tactic(auto)]

ghost use Rattle.std.specs.Prelude.{◌≡◌, length};
ghost use Rattle.printed.specs.Printed.{panel_in, reported};
ghost use Rattle.draw.specs.Drawing.{draw_text_of, PlanesCut};

use contents::bytes::word_at;
use painter::draw::draw;
use printed::fill::character_rom;
use printed::input::{byte_in, panel_in, rest_in};
use printed::screen::print_picture;
use printed::told::Told;
use report::{finish, has_argument, read_rom, read_whole};
use state::panel::Panel;
use std::io::{Print, Result};

// A function, since planes and frame are parts of arrays that its caller owns; no struct, which would be taken apart at once: `draw`, which
// docs/PROMISES.md names, takes them one by one.
// A screen's picture as text, drawn in planes and a frame of its panel's lengths; in the phase that is off where its byte is 0.
fn print_screen(
    dual: bool,
    input: &[u8],
    panel: Panel,
    rom: &[u8],
    graphic: &mut [u8],
    codes: &mut [u8],
    glyphs: &mut [u8],
    frame: &mut [u8],
    out: &mut [u8],
) -> Told
    requires panel_value { panel ≡ panel_in dual input.now }
    requires planes_cut { PlanesCut panel rom.now graphic.old codes.old glyphs.old frame.old }
    ensures { reported result out.new ≡ draw_text_of dual rom.now input.now out.old }
{
    let key = word_at(input, 3) as usize;
    let phase = byte_in(input, 5) != 0;
    let book = rest_in(input, 6);
    match draw(panel, book, key, rom, phase, graphic, codes, glyphs, frame) {
        Ok(()) => Told {
            count: print_picture(panel, 0, 0, frame, out),
            number: 0,
        },
        Err(refused) => {
            let number = refused.refusal.number();
            let count = print_picture(panel, number, refused.place, frame, out);
            Told { count, number }
        }
    }
}

// The program's whole text at the start of `out`, its length and the screen's number; nothing where the room has another length than
// 196,608. Planes and frame are the parts of the largest ones that the panel takes.
fn draw_text(dual: bool, rom: &[u8], input: &[u8], out: &mut [u8]) -> Told
    requires { length rom.now ≡ 1024 }
    ensures { reported result out.new ≡ draw_text_of dual rom.now input.now out.old }
{
    let panel = panel_in(input, dual);
    let size = panel.cell_count();
    let rows = 8 * size;
    let bytes = panel.frame_size();
    let mut graphic = [0u8; 20480];
    let mut codes = [0u8; 2560];
    let mut glyphs = [0u8; 1024];
    let mut frame = [0u8; 20480];
    print_screen(
        dual,
        input,
        panel,
        rom,
        &mut graphic[..rows],
        &mut codes[..size],
        &mut glyphs,
        &mut frame[..bytes],
        out,
    )
}

// Its own in each program: what is shown differs, and no public function has the `requires` that a closure needs (docs/PROMISES.md).
// The text printed: the screen's refusal number. One byte past the limit shows that a book is too long.
fn show(rt: HostRuntime) -> Result<u8> {
    let mut rom = character_rom();
    read_rom(&mut rt.stdin(), has_argument(&rt, 1), &mut rom)?;
    let mut input = [0u8; 32775];
    let end = read_whole(&mut rt.stdin(), &mut input)?;
    let mut out = [0u8; 196608];
    let told = draw_text(has_argument(&rt, 2), &rom, &input[..end], &mut out);
    let count = told.count;
    rt.write_all(&out[..count])?;
    Ok(told.number)
}

fn main(rt: HostRuntime) {
    finish(show(rt));
}
