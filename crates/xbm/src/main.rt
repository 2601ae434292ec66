// The xbm program: the log program's input in, its last frame as XBM out. Started with an argument it takes the character ROM before it,
// with two the panel is in two halves; a refusal's line is then on standard error. Started with the word `back` it takes a panel and a
// frame in XBM's order, and puts out its rows.
#![tactic(auto)]

use controller::run::{Ran, run_stopping};
use display::frame::paint;
use mirror::convert::convert;
use output::{write_line, write_rows};
use printed::fill::{character_rom, empty_memory};
use printed::input::{panel_in, rest_in, start_in};
use printed::put::Text;
use report::{finish, has_argument, read_rom, read_whole};
use state::panel::Panel;
use state::refusal::Refusal;
use state::registers::Registers;
use state::reply::number;
use std::io::Result;
use std::rt::Env;

// Bytes to a line.
const ACROSS: usize = 12;

// In lower case, as XBM has them; printed's are in upper case.
const DIGITS: [u8; 16] = *b"0123456789abcdef";

// By `Text`, a byte's six characters at once: by `println!` the program took 1.7 times as long.
// The bytes of a line, at most twelve, as C has them, with commas between them and `end` behind.
fn put_bytes(rt: HostRuntime, bytes: &[u8], end: &[u8]) -> Result<()> {
    let mut room = [0u8; 80];
    let mut text = Text {
        room: &mut room,
        at: 0,
    };
    let mut between = b' ';
    text.add(b" ");
    for byte in bytes {
        let high = DIGITS[(byte / 16) as usize];
        let low = DIGITS[(byte % 16) as usize];
        text.add(&[between, b' ', b'0', b'x', high, low]);
        between = b',';
    }
    text.add(end);
    let end = text.at;
    Print::write_all(&rt, start_in(&room, end))
}

// All bytes of a frame, line after line, the closing brace behind the last one. Here and below: where a line can't be written the others
// are tried all the same.
fn put_all(rt: HostRuntime, frame: &[u8]) -> Result<()> {
    let mut written = Ok(());
    let mut left = frame.len();
    for bytes in frame.chunks(ACROSS) {
        // counted down, as only the last line shows that nothing is left: an index would be multiplied again to say so
        left = left.saturating_sub(ACROSS);
        let end: &[u8] = if left == 0 { b" };\n" } else { b",\n" };
        written = written.and(put_bytes(rt, bytes, end));
    }
    written
}

// A frame in XBM's order, as C source. A valid panel has at most eighty columns of eight dots, and 32 lines.
fn put_xbm(rt: HostRuntime, panel: Panel, frame: &[u8]) -> Result<()> {
    let across = panel.columns.min(80) * panel.width.min(8);
    let down = 8 * panel.lines.min(32);
    let width = println!(rt; "#define frame_width {across}");
    let height = println!(rt; "#define frame_height {down}");
    let name = println!(rt; "static unsigned char frame_bits[] = {{");
    width.and(height).and(name).and(put_all(rt, frame))
}

// Panel, registers, memory and ROM as `paint` takes them: a struct would be taken apart at once. The room is cut here, for it must be lent
// to a function too, which would save the cut alone.
// The frame painted and converted, then put out.
fn put_frame(
    rt: HostRuntime,
    panel: Panel,
    registers: Registers,
    memory: &[u8],
    rom: &[u8],
) -> Result<()> {
    let size = panel.frame_size();
    let mut room = [0u8; 20480];
    let frame = &mut room[..size];
    // neither refuses: the run was neither `Invalid` nor `OddLength`, and all lengths are right
    let _ = paint(panel, registers, memory, rom, frame);
    let _ = convert(panel, frame);
    put_xbm(rt, panel, frame)
}

fn put_line(to: &impl Print, ran: Ran) -> Result<()> {
    write_line(to, ran.taken, ran.answers, ran.number, ran.place)
}

// A refusal behind which there is a frame, told to whoever gave a ROM.
fn tell(rt: HostRuntime, ran: Ran) -> Result<()> {
    if (ran.number != 0) & has_argument(&rt, 1) {
        put_line(&rt.stderr(), ran)
    } else {
        Ok(())
    }
}

// The run stands here and in the layers program: a function would take the memory and the answers lent, and be this one call.
// The frame after the run; on `Invalid` and `OddLength` the line only.
fn show(rt: HostRuntime, rom: &[u8], input: &[u8]) -> Result<u8> {
    let panel = panel_in(input, has_argument(&rt, 2));
    let log = rest_in(input, 3);
    let mut memory = empty_memory();
    let mut answers = [0u8; 8192];
    let registers = Registers::reset();
    let ran = run_stopping(
        panel,
        registers,
        &mut memory,
        rom,
        log,
        log.len() / 2,
        &mut answers,
    );
    if let Ok(Refusal::Invalid | Refusal::OddLength) = Refusal::try_from(ran.number) {
        return put_line(&rt, ran).and(Ok(ran.number));
    }
    let told = tell(rt, ran);
    let put = put_frame(rt, panel, ran.registers, &memory, rom);
    told.and(put).and(Ok(ran.number))
}

// Its own in each program: what is shown differs, and no public function has the `requires` that a closure needs (docs/PROMISES.md).
// The log run and its frame shown: the run's refusal number.
fn show_log(rt: HostRuntime) -> Result<u8> {
    let mut rom = character_rom();
    read_rom(&mut rt.stdin(), has_argument(&rt, 1), &mut rom)?;
    let mut input = [0u8; 16387];
    let end = read_whole(&mut rt.stdin(), &mut input)?;
    show(rt, &rom, &input[..end])
}

// A frame in XBM's order converted back, and its rows; none where it is refused. More than 16 lines are two halves. One byte more is read
// to see that a frame is too long.
fn show_back(rt: HostRuntime) -> Result<u8> {
    // what was not read is 0, as a missing byte counts
    let mut head = [0u8; 3];
    let short = read_whole(&mut rt.stdin(), &mut head);
    let mut room = [0u8; 20481];
    let end = read_whole(&mut rt.stdin(), &mut room)?;
    short?;
    let frame = &mut room[..end];
    let panel = panel_in(&head, head[1] > 16);
    let converted = convert(panel, frame);
    if converted.is_ok() {
        write_rows(&rt, panel, frame)?;
    }
    Ok(number(converted))
}

// Whether the first argument has four bytes, a `b` the first of them, as `back` has; the command gives no other such word.
fn asked_back(rt: HostRuntime) -> bool {
    let mut word = [0u8; 5];
    match rt.arg(1, &mut word) {
        Ok(count) => (count == 4) & (word[0] == b'b'),
        Err(_) => false,
    }
}

fn main(rt: HostRuntime) {
    let shown = if asked_back(rt) {
        show_back(rt)
    } else {
        show_log(rt)
    };
    finish(shown);
}
