// The stores of a log into a stretch of memory, listed.
ghost use Rattle.std.specs.Prelude.{◌≡◌, ◌*◌, ◌/◌, ◌%◌, length};
ghost use Rattle.state.specs.Refusals.{number_of};
ghost use Rattle.controller.specs.Run.{pairs_of, run_from};
ghost use Rattle.controller.specs.Ready.{Runs};
ghost use Rattle.noting.specs.Notes.{Stays};
ghost use Rattle.writers.specs.Listing.{list_step, begun_list};
ghost use Rattle.writers.specs.Replied.{listed};
ghost use Rattle.writers.specs.Listed.{unlisted, listed_all, listed_of, list_of};
ghost use Rattle.writers.specs.Ready.{ended_of};

use super::pair::through;
use codes::command::is_off;
use codes::pair::Kind;
use effects::effect::{is_read, is_write};
use noting::block::lay;
use noting::note::Notes;
use noting::say::say;
use noting::stretch::Stretch;
use state::panel::Panel;
use state::refusal::{Refusal, Refused};
use state::registers::{Bus, Display, Registers};
use turns::block::passed;
use usual::draw::draw;
use usual::part::{datum, emptied, freed, ticked};

/// What a list comes to: the registers behind the log, how many entries stand in the list, four numbers each, and its refusal. `NoRoomInList` has
/// the entries needed for its place, and the first ones stand in the list.
#[derive(Clone, Copy, Debug, PartialEq, Eq)]
pub struct Listed {
    pub registers: Registers,
    pub count: usize,
    pub end: Result<(), Refused>,
}

fn refuse(refused: Refused, registers: Registers) -> Listed
    ensures { listed result ≡ unlisted (number_of refused.refusal) refused.place registers }
{
    Listed {
        registers,
        count: 0,
        end: Err(refused),
    }
}

// All entries needed, or `NoRoomInList` where they don't fit.
fn ended(display: Display, bus: Bus, room: usize, count: usize) -> Listed
    ensures { listed result ≡ ended_of (record { display = display; bus = bus }) room count }
{
    let registers = Registers { display, bus };
    if count <= room {
        return Listed {
            registers,
            count,
            end: Ok(()),
        };
    }
    Listed {
        registers,
        count: room,
        end: Err(Refused {
            refusal: Refusal::NoRoomInList,
            place: count,
        }),
    }
}

// A loop of its own beside `controller::run`'s: here the stores into the stretch are noted. Kinds stay numbers, as there. Display and bus are two
// locals of the loop (docs/SPEED.md); panel, memory, ROM and log come one by one, as docs/PROMISES.md has `list`.
//
// All pairs of a log, on a machine that is known to be valid. As in `controller::run`, each test ends in `continue`; any pair left goes through
// a whole access.
fn follow(
    notes: &mut Notes,
    panel: Panel,
    mut display: Display,
    mut bus: Bus,
    memory: &mut [u8],
    rom: &[u8],
    log: &[u8],
) -> Listed
    requires runs { Runs panel (record { display = display; bus = bus }) memory.old rom.now }
    requires log_len { length log.now % 2 ≡ 0 }
    requires none { notes.old.count ≡ 0 }
    ensures listed { listed_all (listed result) memory.new notes.new.list.now ≡ listed_of notes.old.list.now (run_from (list_step panel rom.now notes.old.stretch.first notes.old.stretch.last) 0 (pairs_of log.now) (begun_list (record { display = display; bus = bus }) memory.old)).standing.machine }
    ensures stays { Stays notes.old notes.new }
{
    let total = log.len() / 2;
    let mut i: usize = 0;
    // a `while`, since a block takes many pairs at once
    while i < total {
        let pair = i;
        i += 1;
        let kind = log[2 * pair];
        let byte = log[2 * pair + 1];
        let auto = bus.auto;
        if (kind == Kind::Data as u8) & is_write(auto) {
            let laid = lay(notes, memory, log, pair, total, bus.pointer);
            bus = passed(bus, laid);
            i = pair + laid;
            continue;
        }
        let off = is_off(auto);
        if (kind == Kind::Data as u8) & off {
            bus = datum(bus, byte);
            continue;
        }
        if (kind == Kind::Status as u8) | ((kind == Kind::Read as u8) & off) {
            continue;
        }
        let quiet = (kind == Kind::Command as u8) & off;
        if let Some(next) = say(notes, bus, memory, quiet, byte, pair) {
            bus = next;
            continue;
        }
        // below C0H: of these codes its proof knows that they store nothing
        if let Some(next) = draw(display, quiet & (byte < 0xc0), byte) {
            display = next;
            bus = emptied(bus);
            continue;
        }
        if (kind == Kind::Command as u8) & (byte == 0xb2) {
            bus = freed(bus);
            continue;
        }
        if (kind == Kind::Read as u8) & is_read(auto) {
            bus.pointer = bus.pointer.wrapping_add(1);
            continue;
        }
        if kind == Kind::Tick as u8 {
            display = ticked(display);
            continue;
        }
        let registers = Registers { display, bus };
        let next = through(notes, panel, registers, memory, rom, kind, byte, pair);
        display = next.display;
        bus = next.bus;
    }
    ended(display, bus, notes.list.len() / 4, notes.count)
}

// First and last as two numbers, and a flat list: docs/PROMISES.md names this, and C lends the list to `t6963c_writers`, four numbers a store. The
// door is written out: a `Listed` is answered, so that no `?` can hand on what a shared test refuses.
/// Every store of a log into a stretch of memory, its first and its last address; the stretch goes round where the last is below the first. The
/// log is run, refused pairs skipped. `Invalid`, `WrongLength` of memory (65,536) or ROM (1,024), and `OddLength` with the pairs of the log leave
/// all as it was.
#[tactic(auto, unfolding(crate::specs::Listed::list_of))]
pub fn list(
    panel: Panel,
    registers: Registers,
    memory: &mut [u8],
    rom: &[u8],
    log: &[u8],
    first: u16,
    last: u16,
    list: &mut [usize],
) -> Listed
    ensures { listed_all (listed result) memory.new list.new ≡ list_of panel registers memory.old rom.now log.now first last list.old }
{
    let valid = panel.valid() & registers.valid();
    if !valid {
        return refuse(Refusal::Invalid.into(), registers);
    }
    let fits = (memory.len() == 65536) & (rom.len() == 1024);
    if !fits {
        return refuse(Refusal::WrongLength.into(), registers);
    }
    if log.len() % 2 != 0 {
        let place = log.len() / 2;
        return refuse(
            Refused {
                refusal: Refusal::OddLength,
                place,
            },
            registers,
        );
    }
    let stretch = Stretch { first, last };
    let mut notes = Notes {
        stretch,
        list,
        count: 0,
    };
    let display = registers.display;
    let bus = registers.bus;
    follow(&mut notes, panel, display, bus, memory, rom, log)
}
