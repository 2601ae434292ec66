// What C calls to ask who wrote there. A body beside those of crates/boundary, as is said there.
ghost use Rattle.std.specs.Prelude.{◌≡◌};
ghost use Rattle.image.specs.Door.{panel_of};
ghost use Rattle.writing.specs.Writing.{writers_end, writers_bytes};

use image::door::{count_entries, enter, keep, marked};
use writers::list::list;

/// Every store of a log into a stretch of memory, four numbers each: the number. `counts` becomes place, entries.
#[tactic(auto, unfolding(crate::specs::Writing::writers_bytes))]
#[unsafe(no_mangle)]
pub extern "C" fn t6963c_writers(
    columns: usize,
    lines: usize,
    width: usize,
    dual: u8,
    registers: &mut [u8],
    memory: &mut [u8],
    rom: &[u8],
    log: &[u8],
    first: u16,
    last: u16,
    entries: &mut [usize],
    counts: &mut [usize],
) -> u8
    ensures { writers_end result registers.new memory.new entries.new counts.new ≡ writers_bytes (panel_of columns lines width dual) registers.old memory.old rom.now log.now first last entries.old counts.old }
{
    let panel = marked(columns, lines, width, dual);
    let two = counts.len() == 2;
    match enter(panel, two, registers) {
        Ok(state) => {
            let listed = list(panel, state, memory, rom, log, first, last, entries);
            match listed.end {
                Ok(()) => {
                    keep(0, listed.registers, registers);
                    count_entries(0, 0, listed.count, counts);
                    0
                }
                Err(refused) => {
                    let number = refused.refusal.number();
                    keep(number, listed.registers, registers);
                    count_entries(number, refused.place, listed.count, counts);
                    number
                }
            }
        }
        Err(refusal) => refusal.number(),
    }
}
