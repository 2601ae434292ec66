// What a refused pair comes to in a run that lists it.
ghost use Rattle.std.specs.Prelude.{◌≡◌};
ghost use Rattle.turns.specs.Noted.{noted_all, noted_of};

use state::refusal::Refusal;

// Numbers, not a `Refusal`, and one list with its count: docs/PROMISES.md names `note`, which answers for any of them. C lends the list, two numbers
// a pair.
/// What a pair's number comes to: 0 where the run goes on, else the number that it stops by; and the pairs listed so far.
#[derive(Clone, Copy, Debug, PartialEq, Eq)]
pub struct Noted {
    pub listed: usize,
    pub number: u8,
}

// `skipping` is a flag, as `noted_of` has it: one `note` serves the run that stops and the one that skips.
/// A pair behind its turn: where the run is skipping, number and place of a refused one go into the list, or it is `NoRoomForSkipped` where that is
/// full. `NoRoomForAnswer` stops either run.
pub fn note(skipping: bool, number: u8, place: usize, skips: &mut [usize], listed: usize) -> Noted
    ensures { noted_all result skips.new ≡ noted_of skipping number place skips.old listed }
{
    if skipping & (number != 0) & (number != Refusal::NoRoomForAnswer.number()) {
        if listed < skips.len() / 2 {
            skips[2 * listed] = number as usize;
            skips[2 * listed + 1] = place;
            return Noted {
                listed: listed + 1,
                number: 0,
            };
        }
        return Noted {
            listed,
            number: Refusal::NoRoomForSkipped.number(),
        };
    }
    Noted { listed, number }
}
