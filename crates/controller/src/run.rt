// The run of a log.
ghost use Rattle.std.specs.Prelude.{◌≡◌, ◌*◌, ◌≤◌, length, take};
ghost use Rattle.controller.specs.Access.{step_of};
ghost use Rattle.controller.specs.Run.{run_from, ran_all, stopping_of, pairs_of};
ghost use Rattle.controller.specs.Skip.{skip_step, begun_on, ran_on_all, ran_on_of, either_run, run_of};
ghost use Rattle.controller.specs.Ready.{Runs};

use super::turn::turn;
use codes::command::is_off;
use codes::pair::Kind;
use effects::effect::is_write;
use state::panel::Panel;
use state::refusal::Refusal;
use state::registers::Registers;
use turns::block::{block, passed};
use turns::note::note;
use usual::ask::ask;
use usual::draw::draw;
use usual::part::{datum, emptied, freed, ticked};
use usual::tell::tell;

// A number, not a `Refusal`: playback's `play`, `play_on` and `close` (docs/PROMISES.md) take a `Ran`, and answer for any number in it.
/// What a run answers: the number of the refusal that ended it, or 0, and its place; the pairs taken, the answers written, the registers then.
#[derive(Clone, Copy, Debug, PartialEq, Eq)]
pub struct Ran {
    pub number: u8,
    pub place: usize,
    pub taken: usize,
    pub answers: usize,
    pub registers: Registers,
}

/// What a run that goes on behind refusals answers: as any run, and the pairs listed.
#[derive(Clone, Copy, Debug, PartialEq, Eq)]
pub struct RanOn {
    pub ran: Ran,
    pub skipped: usize,
}

// a function, though it is one struct literal: docs/PROMISES.md names it
/// What a run answers, part by part.
pub fn ended(
    number: u8,
    place: usize,
    taken: usize,
    answers: usize,
    registers: Registers,
    skipped: usize,
) -> RanOn
    ensures { result ≡ record { ran = record { number = number; place = place; taken = taken; answers = answers; registers = registers }; skipped = skipped } }
{
    RanOn {
        ran: Ran {
            number,
            place,
            taken,
            answers,
            registers,
        },
        skipped,
    }
}

// What is lent comes one by one, here and below, as docs/PROMISES.md has `run` and `run_stopping`; a struct would be taken apart at once.
// `skipping` stays a flag, here and in `enter`: one loop is the run that stops and the one that skips, as `either_run` and `noted_of` have it.
// Kinds stay numbers: `turn` refuses those above 4, and with a `Kind` there would be a second place for refusals (docs/SPEED.md has one).
//
// The first `total` pairs of a log, on a machine that is known to be valid.
fn pairs(
    panel: Panel,
    registers: Registers,
    mem: &mut [u8],
    rom: &[u8],
    log: &[u8],
    total: usize,
    answers: &mut [u8],
    skips: &mut [usize],
    skipping: bool,
) -> RanOn
    requires runs { Runs panel registers mem.old rom.now }
    requires total_in_bounds { 2 * total ≤ length log.now }
    ensures { ran_on_all result mem.new answers.new skips.new ≡ ran_on_of (run_from (skip_step skipping (step_of panel rom.now)) 0 (take total (pairs_of log.now)) (begun_on registers mem.old answers.old skips.old)) }
{
    let mut display = registers.display;
    let mut bus = registers.bus;
    let mut given: usize = 0;
    let mut listed: usize = 0;
    let mut i: usize = 0;
    // a `while`, since a block takes many pairs at once
    while i < total {
        let kind = log[2 * i];
        let byte = log[2 * i + 1];
        let auto = bus.auto;
        if (kind == Kind::Data as u8) & is_write(auto) {
            let end = block(mem, bus.pointer, log, i, total);
            bus = passed(bus, end - i);
            i = end;
            continue;
        }
        let off = is_off(auto);
        if (kind == Kind::Data as u8) & off {
            bus = datum(bus, byte);
            i += 1;
            continue;
        }
        // commands in a branch of their own: with the kind tested in `quiet` and at B2H instead, reads in auto read took 3.3 ns a pair for 2.4
        if kind == Kind::Command as u8 {
            let told = tell(bus, mem, off, byte);
            if told.done {
                bus = told.bus;
                i += 1;
                continue;
            }
            if let Some(next) = draw(display, off, byte) {
                display = next;
                bus = emptied(bus);
                i += 1;
                continue;
            }
            if byte == 0xb2 {
                bus = freed(bus);
                i += 1;
                continue;
            }
        }
        if let Some(asked) = ask(display.phase, bus, mem, answers, given, kind) {
            bus = asked.bus;
            given = asked.given;
            i += 1;
            continue;
        }
        if kind == Kind::Tick as u8 {
            display = ticked(display);
            i += 1;
            continue;
        }
        match turn(
            panel,
            Registers { display, bus },
            mem,
            rom,
            answers,
            given,
            kind,
            byte,
        ) {
            Ok(taken) => {
                display = taken.registers.display;
                bus = taken.registers.bus;
                given = taken.given;
                i += 1;
                // not by the arms' common end: single stores then took 2.8 ns a pair for 2.4
                continue;
            }
            Err(refusal) => {
                let noted = note(skipping, refusal.number(), i, skips, listed);
                let number = noted.number;
                listed = noted.listed;
                if number != 0 {
                    return ended(number, i, i, given, Registers { display, bus }, listed);
                }
            }
        }
        i += 1;
    }
    ended(0, 0, i, given, Registers { display, bus }, listed)
}

// The door is written out: a `RanOn` is answered, so that no `?` can hand on what a shared test refuses.
//
// At most `limit` pairs of a log: the tests at the door, then pair after pair.
fn enter(
    panel: Panel,
    registers: Registers,
    mem: &mut [u8],
    rom: &[u8],
    log: &[u8],
    limit: usize,
    answers: &mut [u8],
    skips: &mut [usize],
    skipping: bool,
) -> RanOn
    ensures { ran_on_all result mem.new answers.new skips.new ≡ either_run skipping panel registers mem.old rom.now log.now limit answers.old skips.old }
{
    let valid = panel.valid() & registers.valid();
    if !valid {
        return ended(Refusal::Invalid.number(), 0, 0, 0, registers, 0);
    }
    let fits = (mem.len() == 65536) & (rom.len() == 1024);
    if !fits {
        return ended(Refusal::WrongLength.number(), 0, 0, 0, registers, 0);
    }
    let whole = log.len() / 2;
    if log.len() % 2 != 0 {
        return ended(Refusal::OddLength.number(), whole, 0, 0, registers, 0);
    }
    let total = limit.min(whole);
    pairs(
        panel, registers, mem, rom, log, total, answers, skips, skipping,
    )
}

/// At most `limit` pairs of a log. A refused pair is listed in `skips` by number and place, and the run goes on behind it; a read without room
/// for its answer ends it, as `NoRoomForAnswer`, and so does a refused pair without room in the list, as `NoRoomForSkipped`. Answers stand in the
/// order of their reads. `Invalid`, `WrongLength` of memory (65,536) or ROM (1,024), and `OddLength` with the log's whole pairs leave all as it was.
pub fn run(
    panel: Panel,
    registers: Registers,
    mem: &mut [u8],
    rom: &[u8],
    log: &[u8],
    limit: usize,
    answers: &mut [u8],
    skips: &mut [usize],
) -> RanOn
    ensures { ran_on_all result mem.new answers.new skips.new ≡ run_of panel registers mem.old rom.now log.now limit answers.old skips.old }
{
    enter(panel, registers, mem, rom, log, limit, answers, skips, true)
}

/// At most `limit` pairs of a log, up to the first that is refused, whose place is its number in the log; before that the refusals of `run`.
pub fn run_stopping(
    panel: Panel,
    registers: Registers,
    mem: &mut [u8],
    rom: &[u8],
    log: &[u8],
    limit: usize,
    answers: &mut [u8],
) -> Ran
    ensures { ran_all result mem.new answers.new ≡ stopping_of panel registers mem.old rom.now log.now limit answers.old }
{
    let mut none = [0usize; 0];
    let gone = enter(
        panel, registers, mem, rom, log, limit, answers, &mut none, false,
    );
    gone.ran
}
