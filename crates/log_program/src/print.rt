// What the log program prints, as bytes in a lent room.
ghost use Rattle.std.specs.Prelude.{◌≡◌, ◌+◌, ◌*◌, ◌≤◌, length};
ghost use Rattle.ground.specs.Lists.{zeros};
ghost use Rattle.controller.specs.Run.{ran_all};
ghost use Rattle.printed.specs.Put.{TextPut};
ghost use Rattle.printed.specs.Printed.{characters, reported};
ghost use Rattle.log_program.specs.Printing.{log_in, ran_in, ran_line, text_of, print_of};
ghost use Rattle.log_program.specs.Ready.{TextReady};

use controller::run::{Ran, run_stopping};
use display::frame::paint;
use printed::fill::{character_rom, empty_memory, zeroed};
use printed::input::{panel_in, rest_in, start_in};
use printed::parts::{print_answers, print_line, print_rows};
use printed::told::Told;
use state::panel::Panel;
use state::refusal::Refusal;
use state::registers::Registers;

// The log out of the input.
fn log_in(input: &[u8]) -> &[u8]
    ensures { result.now ≡ log_in input.now }
{
    start_in(rest_in(input, 3), 16384)
}

// The run's line, which has at most 112 characters.
fn put_line(ran: Ran, out: &mut [u8]) -> usize
    requires { 112 ≤ length out.old }
    ensures text_put { TextPut out.old 0 (ran_line ran) out.new result }
    ensures upper_bound { result ≤ 112 }
{
    print_line(
        ran.taken,
        ran.answers,
        ran.number,
        ran.place,
        &mut out[..112],
    )
}

// The room is cut here: lent to a function it would be cut again, for the rows.
// What a run came to; on `Invalid` and `OddLength` the first line only.
fn put_ran(
    panel: Panel,
    ran: Ran,
    memory: &[u8],
    rom: &[u8],
    answers: &[u8],
    out: &mut [u8],
) -> usize
    requires { TextReady panel ran memory.now rom.now answers.now (zeros 20480) out.old }
    ensures text_put { TextPut out.old 0 (text_of panel rom.now (ran_all ran memory.now answers.now)) out.new result }
    ensures upper_bound { result ≤ 196608 }
{
    let line = put_line(ran, out);
    // by number, as the run has it
    let invalid = ran.number == Refusal::Invalid.number();
    let odd = ran.number == Refusal::OddLength.number();
    if invalid | odd {
        return line;
    }
    let next = line + print_answers(ran.answers, answers, &mut out[line..]);
    let size = panel.frame_size();
    let mut room = [0u8; 20480];
    let frame = &mut room[..size];
    // never refused: the run was neither `Invalid` nor `OddLength`, and all lengths are right
    let _ = paint(panel, ran.registers, memory, rom, frame);
    next + print_rows(panel, frame, &mut out[next..])
}

// The run of the input's log, from reset on fresh rooms. Layers and xbm make this one call themselves, with a panel of either kind.
fn run_log(input: &[u8], memory: &mut [u8], rom: &[u8], answers: &mut [u8]) -> Ran
    requires { (memory.old ≡ zeros 65536) × (rom.now ≡ characters) × (answers.old ≡ zeros 8192) }
    ensures { ran_all result memory.new answers.new ≡ ran_in input.now }
{
    let panel = panel_in(input, false);
    let log = log_in(input);
    let registers = Registers::reset();
    run_stopping(panel, registers, memory, rom, log, log.len() / 2, answers)
}

/// The whole text at the start of `out`, its length and the run's number; nothing and that of `WrongLength` where the room has another length
/// than 196,608.
pub fn print(input: &[u8], out: &mut [u8]) -> Told
    ensures { reported result out.new ≡ print_of input.now out.old }
{
    if out.len() != 196608 {
        return Told {
            count: 0,
            number: Refusal::WrongLength.number(),
        };
    }
    let mut memory = empty_memory();
    let rom = character_rom();
    let mut answers = zeroed::<8192>();
    let ran = run_log(input, &mut memory, &rom, &mut answers);
    let panel = panel_in(input, false);
    let count = put_ran(panel, ran, &memory, &rom, &answers, out);
    Told {
        count,
        number: ran.number,
    }
}
