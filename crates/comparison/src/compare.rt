// Two logs, each run in a memory of its own.
ghost use Rattle.std.specs.Prelude.{◌≡◌, ◌≤◌, IfErr};
ghost use Rattle.state.specs.State.{reset_registers};
ghost use Rattle.state.specs.Refusals.{number_of};
ghost use Rattle.entries.specs.Entered.{entered};
ghost use Rattle.whole.specs.Whole.{whole_of};
ghost use Rattle.comparison.specs.Ready.{Few, RanReset};
ghost use Rattle.comparison.specs.Verdict.{compared, compared_all, told_of, compare_of};

use super::dots::Pictures;
use entries::enter::{Entries, NoRoom, enter};
use image::values::register_values;
use state::panel::Panel;
use state::refusal::Refusal;
use state::registers::Registers;
use whole::all::run_all;

/// The entries listed of memory, then of registers, three numbers each; and the dots that differ.
#[derive(Clone, Copy, Debug, PartialEq, Eq)]
pub struct Compared {
    pub memory: usize,
    pub registers: usize,
    pub dots: usize,
}

// `number` is no `Refusal`: `Refusal::try_from(ran.number)` below would have an arm for a number that no run gives, and no answer for it.
/// Why nothing was compared: a refusal's number, as a run gives it, its place, and the log that it is of, 1 or 2, or 0 for neither.
#[derive(Clone, Copy, Debug, PartialEq, Eq)]
pub struct Refused {
    pub number: u8,
    pub place: usize,
    // no Option: the line of it has 0 for neither (docs/FORMATS.md), which `log.unwrap_or(0)` would only make again
    pub log: u8,
}

// A refusal of neither log.
impl From<Refusal> for Refused {
    ghost from_gives = { λ refusal refused. refused ≡ record { number = number_of refusal; place = 0; log = 0 } };

    fn from(refusal: Refusal) -> Refused {
        Refused {
            number: refusal.number(),
            place: 0,
            log: 0,
        }
    }
}

// NoRoomInList with the entries needed, where the list is too short for them.
fn told(answer: Result<Entries, NoRoom>, dots: usize) -> Result<Compared, Refused>
    requires { Few (entered answer) }
    ensures answer { compared result ≡ told_of (entered answer) dots }
    ensures refused { IfErr result (λ refused. 1 ≤ refused.number) }
{
    match answer {
        Ok(entries) => Ok(Compared {
            memory: entries.bytes,
            registers: entries.values,
            dots,
        }),
        Err(NoRoom(needed)) => {
            let place = needed.bytes + needed.values;
            Err(Refused {
                number: Refusal::NoRoomInList.number(),
                place,
                log: 0,
            })
        }
    }
}

// One by one, as `run_all` takes them.
// A log from reset in a memory: the registers then, or its refusal, of log `number`.
fn run_reset(
    panel: Panel,
    memory: &mut [u8],
    rom: &[u8],
    log: &[u8],
    number: u8,
) -> Result<Registers, Refused>
    ensures { RanReset number (whole_of panel reset_registers memory.old rom.now log.now) result memory.new }
{
    let ran = run_all(panel, Registers::reset(), memory, rom, log);
    if ran.number != 0 {
        return Err(Refused {
            number: ran.number,
            place: ran.place,
            log: number,
        });
    }
    Ok(ran.registers)
}

// A list of numbers, three an entry: docs/PROMISES.md names this, as it does `enter`, which fills it. The two tests at the head stand here: a
// function for all entries would take them as flags.
/// Two logs of any length, both from reset: log one in memory `one`, log two in `two`, first made a copy of it, 65,536 bytes each, ROM of
/// 1,024. Every address whose bytes differ, then every register that does, three numbers each, at the list's start. Invalid, WrongLength;
/// then the refusal of log one, of log two; then NoRoomInList with the entries needed, and a refusal leaves the list as it was.
#[tactic(auto, unfolding(crate::specs::Verdict::compare_of, crate::specs::Verdict::after_one, crate::specs::Verdict::after_two))]
pub fn compare(
    panel: Panel,
    one: &mut [u8],
    two: &mut [u8],
    rom: &[u8],
    log_one: &[u8],
    log_two: &[u8],
    list: &mut [usize],
) -> Result<Compared, Refused>
    ensures answer { compared_all (compared result) one.new two.new list.new ≡ compare_of panel one.old two.old rom.now log_one.now log_two.now list.old }
    ensures refused { IfErr result (λ refused. 1 ≤ refused.number) }
{
    let valid = panel.valid();
    if !valid {
        return Err(Refused::from(Refusal::Invalid));
    }
    let fits = (one.len() == 65536) & (two.len() == 65536) & (rom.len() == 1024);
    if !fits {
        return Err(Refused::from(Refusal::WrongLength));
    }
    two.copy_from_slice(one);
    let first = run_reset(panel, one, rom, log_one, 1)?;
    let second = run_reset(panel, two, rom, log_two, 2)?;
    let pictures = Pictures {
        panel,
        first: first.display,
        one,
        second: second.display,
        two,
        rom,
    };
    let apart = pictures.dots_apart();
    let a = register_values(first);
    let b = register_values(second);
    told(enter(one, two, &a, &b, list), apart)
}
