// Reads.
ghost use Rattle.usual.specs.Done.{asked};
ghost use Rattle.usual.specs.Ready.{Asks};

use codes::pair::Kind;
use effects::effect::{bus_status, moved};
use effects::store::byte_there;
use state::registers::{Auto, Bus, Move};

/// A read done: the bus then, the answers so far.
#[derive(Clone, Copy, Debug, PartialEq, Eq)]
pub struct Asked {
    pub bus: Bus,
    pub given: usize,
}

// Kind, buffer and count as docs/PROMISES.md has `ask`, which leaves a pair of any kind. No `get_mut(given)`: behind it a proof knows no byte of the
// buffer. Kind and room are tested before `auto`, and the pointer of a copy is set: with one test for kind, room and `auto`, and `..bus`, the run's
// reads in auto read took 2.4 ns a pair for 1.8.
/// A read of the status or of data, where there is room for the answer behind the `given` first. Any other pair is left, and gives none.
pub fn ask(
    phase: bool,
    bus: Bus,
    mem: &[u8],
    answers: &mut [u8],
    given: usize,
    kind: u8,
) -> Option<Asked>
    ensures { Asks phase bus mem.now answers.old given kind (asked bus given result) answers.new }
{
    let room = given < answers.len();
    if (kind == Kind::Status as u8) & room {
        answers[given] = bus_status(bus, phase);
        return Some(Asked {
            bus,
            given: given + 1,
        });
    }
    if (kind != Kind::Read as u8) | !room {
        return None;
    }
    match bus.auto {
        Auto::Off => {
            answers[given] = bus.latch;
            Some(Asked {
                bus,
                given: given + 1,
            })
        }
        Auto::Read => {
            answers[given] = byte_there(mem, bus.pointer);
            let mut next = bus;
            next.pointer = moved(Move::Up, bus.pointer);
            Some(Asked {
                bus: next,
                given: given + 1,
            })
        }
        Auto::Write => None,
    }
}
