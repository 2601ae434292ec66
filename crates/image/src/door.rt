// What each call with registers as bytes does before the controller is asked, and after.
ghost use Rattle.std.specs.Prelude.{◌≡◌};
ghost use Rattle.image.specs.Door.{entry, panel_of, door_of, closes, written_of, kept_of, counts_of, counts_on_of, list_counts_of};

use super::image::{decode, encode, is_readable};
use state::panel::Panel;
use state::refusal::Refusal;
use state::registers::Registers;

/// The panel by its marker: 0 for one, 1 for one in two halves. With another marker it has no lines, so that it is refused as Invalid.
pub fn marked(columns: usize, lines: usize, width: usize, dual: u8) -> Panel
    ensures { result ≡ panel_of columns lines width dual }
{
    let lines = if dual <= 1 { lines } else { 0 };
    Panel {
        columns,
        lines,
        width,
        dual: dual == 1,
    }
}

// `lent` as a flag: docs/PROMISES.md names this, and callers differ in what else has a fixed length: two, three or four counts, or nothing.
/// The registers that stand in a buffer of 25 bytes. `lent` says whether the other buffers whose length is fixed here have it; that is asked
/// last. Invalid for a panel, or WrongLength for a buffer of another length; then Invalid for bytes that are no registers, or no valid ones,
/// then WrongLength for what is lent.
#[tactic(auto, unfolding(crate::specs::Door::door_of, crate::specs::Image::image_state))]
pub fn enter(panel: Panel, lent: bool, bytes: &[u8]) -> Result<Registers, Refusal>
    ensures { entry result ≡ door_of panel lent bytes.now }
{
    if !panel.valid() {
        return Err(Refusal::Invalid);
    }
    if bytes.len() != 25 {
        return Err(Refusal::WrongLength);
    }
    let registers = decode(bytes);
    let stands = is_readable(bytes) & registers.valid();
    if !stands {
        return Err(Refusal::Invalid);
    }
    if !lent {
        return Err(Refusal::WrongLength);
    }
    Ok(registers)
}

// kept as a number, here and below: these write back for C what a run answered, whose number stands in `Ran`
// Whether a number leaves every buffer as it was.
fn untouched(number: u8) -> bool
    ensures { result ≡ closes number }
{
    matches!(
        Refusal::try_from(number),
        Ok(Refusal::Invalid) | Ok(Refusal::WrongLength)
    )
}

/// The registers written back over 25 bytes, unless the number, Invalid's or WrongLength's, says that nothing was touched; a buffer of another
/// length stays.
pub fn keep(number: u8, registers: Registers, bytes: &mut [u8])
    ensures { bytes.new ≡ kept_of number registers bytes.old }
{
    if untouched(number) {
        return;
    }
    encode(registers, bytes);
}

// Numbers over a buffer for just as many, unless nothing was touched.
fn write_over(number: u8, new: &[usize], counts: &mut [usize])
    ensures { counts.new ≡ written_of number new.now counts.old }
{
    if untouched(number) {
        return;
    }
    if counts.len() != new.len() {
        return;
    }
    counts.copy_from_slice(new);
}

// One by one, here and below: `Ran`, which holds them, is controller's, and this crate stands below that one.
/// A run's three counts, unless the number says that nothing was touched; a buffer for another count of them stays.
pub fn count(number: u8, place: usize, taken: usize, answers: usize, counts: &mut [usize])
    ensures { counts.new ≡ counts_of number place taken answers counts.old }
{
    write_over(number, &[place, taken, answers], counts);
}

/// The same of an ordinary run, four counts: with the pairs listed.
pub fn count_on(
    number: u8,
    place: usize,
    pairs: usize,
    answers: usize,
    skipped: usize,
    counts: &mut [usize],
)
    ensures { counts.new ≡ counts_on_of number place pairs answers skipped counts.old }
{
    write_over(number, &[place, pairs, answers, skipped], counts);
}

/// The same of a list of stores, two counts: its place and its entries.
pub fn count_entries(number: u8, place: usize, entries: usize, counts: &mut [usize])
    ensures { counts.new ≡ list_counts_of number place entries counts.old }
{
    write_over(number, &[place, entries], counts);
}
