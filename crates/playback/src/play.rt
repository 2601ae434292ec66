// A run that goes on from a state, its counts from the whole log's start.
ghost use Rattle.std.specs.Prelude.{◌≡◌};
ghost use Rattle.playback.specs.Play.{begun_of, counted_on, played_all, play_of, played_on_all, play_on_of, closed_of};

use controller::run::{Ran, run, run_stopping};
use state::panel::Panel;
use state::refusal::Refusal;
use state::registers::Registers;

// A run's refusal stays a number, and what is lent comes one by one, here and below: docs/PROMISES.md names `play`, `play_on` and `close`,
// which take a `Ran`, answer for any number that stands in it, and lend what their caller owns.
/// The run so far, and how many answers the part gave.
#[derive(Clone, Copy, Debug, PartialEq, Eq)]
pub struct Played {
    pub ran: Ran,
    pub given: usize,
}

/// Likewise, and how many pairs of the part were skipped.
#[derive(Clone, Copy, Debug, PartialEq, Eq)]
pub struct PlayedOn {
    pub ran: Ran,
    pub given: usize,
    pub skipped: usize,
}

/// Nothing played yet.
pub fn begin(registers: Registers) -> Ran
    ensures { result ≡ begun_of registers }
{
    Ran {
        number: 0,
        place: 0,
        taken: 0,
        answers: 0,
        registers,
    }
}

// A part's run, its counts and its place behind those of the run so far; modulo 2^64, which no log reaches.
fn counted(past: Ran, part: Ran) -> Ran
    ensures { result ≡ counted_on past part }
{
    let registers = part.registers;
    let taken = past.taken.wrapping_add(part.taken);
    let answers = past.answers.wrapping_add(part.answers);
    let there = past.taken.wrapping_add(part.place);
    let place = if part.number == 0 { 0 } else { there };
    Ran {
        number: part.number,
        place,
        taken,
        answers,
        registers,
    }
}

/// The next part of a log, whole pairs, with room of its own for its answers, a byte each. A run that was refused goes no further.
#[tactic(auto, unfolding(crate::specs::Play::play_of))]
pub fn play(
    panel: Panel,
    past: Ran,
    mem: &mut [u8],
    rom: &[u8],
    part: &[u8],
    answers: &mut [u8],
) -> Played
    ensures { played_all result mem.new answers.new ≡ play_of panel past mem.old rom.now part.now answers.old }
{
    if past.number != 0 {
        return Played {
            ran: past,
            given: 0,
        };
    }
    let registers = past.registers;
    let ran = run_stopping(panel, registers, mem, rom, part, part.len() / 2, answers);
    let next = counted(past, ran);
    Played {
        ran: next,
        given: ran.answers,
    }
}

// Two functions: docs/PROMISES.md names both, each with a theorem of its own.
/// The same by the ordinary run, with a list of its own for the pairs skipped, two numbers each, their places counted from the part's start.
#[tactic(auto, unfolding(crate::specs::Play::play_on_of))]
pub fn play_on(
    panel: Panel,
    heard: Ran,
    mem: &mut [u8],
    rom: &[u8],
    part: &[u8],
    answers: &mut [u8],
    skips: &mut [usize],
) -> PlayedOn
    ensures { played_on_all result mem.new answers.new skips.new ≡ play_on_of panel heard mem.old rom.now part.now answers.old skips.old }
{
    if heard.number != 0 {
        return PlayedOn {
            ran: heard,
            given: 0,
            skipped: 0,
        };
    }
    let registers = heard.registers;
    let gone = run(
        panel,
        registers,
        mem,
        rom,
        part,
        part.len() / 2,
        answers,
        skips,
    );
    let ran = gone.ran;
    let next = counted(heard, ran);
    PlayedOn {
        ran: next,
        given: ran.answers,
        skipped: gone.skipped,
    }
}

/// The run of the whole log, by the lengths of memory, ROM and log: OddLength where the log's is odd and neither Invalid nor WrongLength
/// comes first, and then no pair counts.
pub fn close(
    panel: Panel,
    registers: Registers,
    memory: usize,
    rom: usize,
    bytes: usize,
    past: Ran,
) -> Ran
    ensures { result ≡ closed_of panel registers memory rom bytes past }
{
    let valid = panel.valid() & registers.valid();
    let lent = (memory == 65536) & (rom == 1024);
    let odd = valid & lent & (bytes % 2 != 0);
    if odd {
        return Ran {
            number: Refusal::OddLength.number(),
            place: bytes / 2,
            taken: 0,
            answers: 0,
            registers,
        };
    }
    past
}
