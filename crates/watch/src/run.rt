// A run that keeps the flags.
ghost use Rattle.std.specs.Prelude.{◌≡◌, ◌*◌, ◌<◌, ◌≤◌, true, length, take, IfSome, OnErr};
ghost use Rattle.controller.specs.Run.{turn_of, run_from, pairs_of};
ghost use Rattle.controller.specs.Skip.{skip_step};
ghost use Rattle.flags.specs.Flags.{flag_step};
ghost use Rattle.flags.specs.Outcome.{flag_entered_of};
ghost use Rattle.flags.specs.Ready.{Following};
ghost use Rattle.watch.specs.Watched.{ran_flags, begun_flags, ran_flags_of, flag_run_of};
ghost use Rattle.watch.specs.Runs.{standing_flags, flag_turn, Quickly, Stretched};

use codes::command::is_off;
use codes::pair::Kind;
use controller::run::{RanOn, ended};
use effects::effect::{is_write, with_auto};
use flags::follow::access;
use ground::bytes::word;
use state::panel::Panel;
use state::refusal::Refusal;
use state::registers::{Auto, Registers};
use touch::touch::mark;
use turns::block::{block, passed};
use turns::note::note;
use turns::taken::Taken;
use usual::part::{datum, emptied, freed};

// Beside `controller::turn`: one for both would be public and take its access as a closure, and no public function has the `requires` that a
// closure needs (docs/PROMISES.md). Parameters one by one, here and below, as `access` and `run` take them, which docs/PROMISES.md names. No
// `get_mut(given)`: behind it a proof knows no byte of the buffer.
//
// One pair; what a read gives goes into the buffer.
fn turn(
    panel: Panel,
    registers: Registers,
    memory: &mut [u8],
    rom: &[u8],
    answers: &mut [u8],
    given: usize,
    kind: u8,
    byte: u8,
    flags: &mut [u8],
) -> Result<Taken, Refusal>
    requires { Following panel registers memory.old rom.now flags.old }
    ensures step { flag_turn result memory.new flags.new answers.new ≡ turn_of (standing_flags registers memory.old flags.old answers.old given) (flag_entered_of panel registers memory.old rom.now (record { kind = kind; byte = byte }) flags.old) }
    ensures err { OnErr result ((memory.new ≡ memory.old) × ((flags.new ≡ flags.old) × (answers.new ≡ answers.old))) }
{
    // told without an access: a log may hold many
    if (kind == Kind::Read as u8) & is_write(registers.bus.auto) {
        return Err(Refusal::WrongWay);
    }
    let mut after = registers;
    let answer = access(&mut after, panel, memory, rom, kind, byte, flags)?;
    let Some(read) = answer else {
        return Ok(Taken {
            registers: after,
            given,
        });
    };
    if answers.len() <= given {
        return Err(Refusal::NoRoomForAnswer);
    }
    answers[given] = read;
    Ok(Taken {
        registers: after,
        given: given + 1,
    })
}

// `log`, `from` and `total` as `turns::block::block` takes them.
//
// A block of data, and the rows that read one of its addresses flagged: once for all of them.
fn stretch(
    panel: Panel,
    registers: Registers,
    memory: &mut [u8],
    log: &[u8],
    from: usize,
    total: usize,
    flags: &mut [u8],
) -> usize
    requires mem_len { length memory.old ≡ 65536 }
    requires total_in_bounds { (2 * total ≤ length log.now) × (from ≤ total) }
    ensures { Stretched panel registers memory.old log.now from total flags.old memory.new flags.new result }
{
    let bus = registers.bus;
    let end = block(memory, bus.pointer, log, from, total);
    mark(
        panel,
        registers.display,
        memory,
        bus.pointer,
        end - from,
        false,
        flags,
    );
    end
}

// Once more beside `usual`: what two callers of one library share is inlined in neither (docs/DECISIONS.md).
// Kinds stay numbers, here and below, as in `controller::run`: `access` refuses those above 4.
//
// What surrounds a block of data, and alters nothing that is shown: data in auto off, 24H, B0H and B2H, where they are taken.
fn at_once(registers: Registers, kind: u8, byte: u8) -> Option<Registers>
    ensures { IfSome result (λ next. Quickly registers (record { kind = kind; byte = byte }) next) }
{
    let display = registers.display;
    let bus = registers.bus;
    let auto = bus.auto;
    let off = is_off(auto);
    if (kind == Kind::Data as u8) & off {
        let bus = datum(bus, byte);
        return Some(Registers { display, bus });
    }
    if (kind == Kind::Command as u8) & (byte == 0xb2) {
        let bus = freed(bus);
        return Some(Registers { display, bus });
    }
    if (kind == Kind::Command as u8) & off & (byte == 0xb0) {
        let bus = with_auto(emptied(bus), Auto::Write);
        return Some(Registers { display, bus });
    }
    if (kind == Kind::Command as u8) & off & (byte == 0x24) & (2 <= bus.pending.count) {
        let mut next = emptied(bus);
        next.pointer = word(bus.pending.older, bus.pending.newest);
        return Some(Registers { display, bus: next });
    }
    None
}

// A loop of its own beside `controller::run`'s: here a block and a pair also mark the rows that they touch. `given` and `listed` stay numbers
// beside their buffers, as `note` takes them: lent in a struct, a local stays in memory for the whole loop.
//
// The first `total` pairs of a log, on what is known to be valid.
fn pairs(
    panel: Panel,
    registers: Registers,
    memory: &mut [u8],
    rom: &[u8],
    log: &[u8],
    total: usize,
    answers: &mut [u8],
    skips: &mut [usize],
    flags: &mut [u8],
) -> RanOn
    requires following { Following panel registers memory.old rom.now flags.old }
    requires total_in_bounds { 2 * total ≤ length log.now }
    ensures { ran_flags result memory.new answers.new skips.new flags.new ≡ ran_flags_of (run_from (skip_step true (flag_step panel rom.now)) 0 (take total (pairs_of log.now)) (begun_flags registers memory.old answers.old skips.old flags.old)) }
{
    let mut state = registers;
    let mut given: usize = 0;
    let mut listed: usize = 0;
    let mut i: usize = 0;
    // a `while`, since a block takes many pairs at once
    while i < total {
        let kind = log[2 * i];
        let byte = log[2 * i + 1];
        let bus = state.bus;
        let auto = bus.auto;
        if (kind == Kind::Data as u8) & is_write(auto) {
            let end = stretch(panel, state, memory, log, i, total, flags);
            state.bus = passed(bus, end - i);
            i = end;
            continue;
        }
        if let Some(next) = at_once(state, kind, byte) {
            state = next;
            i += 1;
            continue;
        }
        match turn(panel, state, memory, rom, answers, given, kind, byte, flags) {
            Ok(taken) => {
                state = taken.registers;
                given = taken.given;
            }
            Err(refusal) => {
                let noted = note(true, refusal.number(), i, skips, listed);
                let number = noted.number;
                listed = noted.listed;
                if number != 0 {
                    return ended(number, i, i, given, state, listed);
                }
            }
        }
        i += 1;
    }
    ended(0, 0, i, given, state, listed)
}

// The door is written out: a `RanOn` is answered, so that no `?` can hand on what a shared test refuses.
/// At most `limit` pairs of a log, refused ones skipped and listed, the flags kept, one of 8 · lines for each dot row. What it answers is
/// `controller::run`'s; with `Invalid`, `WrongLength` and `OddLength` nothing is touched.
#[tactic(auto, using(crate::proofs::RunDoors::least), unfolding(crate::specs::Watched::flag_run_of))]
pub fn run(
    panel: Panel,
    registers: Registers,
    memory: &mut [u8],
    rom: &[u8],
    log: &[u8],
    limit: usize,
    answers: &mut [u8],
    skips: &mut [usize],
    flags: &mut [u8],
) -> RanOn
    ensures { ran_flags result memory.new answers.new skips.new flags.new ≡ flag_run_of panel registers memory.old rom.now log.now limit answers.old skips.old flags.old }
{
    let valid = panel.valid() & registers.valid();
    if !valid {
        return ended(Refusal::Invalid.number(), 0, 0, 0, registers, 0);
    }
    let fits = (memory.len() == 65536) & (rom.len() == 1024) & (flags.len() == 8 * panel.lines);
    if !fits {
        return ended(Refusal::WrongLength.number(), 0, 0, 0, registers, 0);
    }
    let whole = log.len() / 2;
    if log.len() % 2 != 0 {
        return ended(Refusal::OddLength.number(), whole, 0, 0, registers, 0);
    }
    let total = limit.min(whole);
    pairs(
        panel, registers, memory, rom, log, total, answers, skips, flags,
    )
}
