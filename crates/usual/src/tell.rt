// Commands of the bus and the memory.
ghost use Rattle.std.specs.Prelude.{◌≡◌, false};
ghost use Rattle.usual.specs.Ready.{Tells};

use effects::effect::with_auto;
use effects::store::{change, fetch, put};
use ground::bytes::word;
use state::registers::{Auto, Bus, Move, Pending};

// No Option: with one the run's single stores were half as slow again.
/// A command of the bus alone, done or left as it was.
#[derive(Clone, Copy, Debug, PartialEq, Eq)]
pub struct Told {
    pub bus: Bus,
    pub done: bool,
}

// A command that is left.
fn left(bus: Bus) -> Told
    ensures { result ≡ record { bus = bus; done = false } }
{
    Told { bus, done: false }
}

// Codes once more beside `codes::decode`: a decoded command is an enum and goes through memory (docs/SPEED.md). `quiet` as docs/PROMISES.md has
// `tell`.
/// The commands that a drawing program sends most: pointer, auto, stores, loads and bits, where they are taken. Any other is left. `quiet` says that
/// this is a command and auto is off; where it is not, all is left.
pub fn tell(bus: Bus, mem: &mut [u8], quiet: bool, code: u8) -> Told
    ensures { Tells bus mem.old quiet code result mem.new }
{
    let pending = bus.pending;
    let mut next = bus;
    next.pending = Pending::NONE;
    if quiet {
        match code {
            0x24 => {
                if pending.count < 2 {
                    return left(bus);
                }
                next.pointer = word(pending.older, pending.newest);
                Told {
                    bus: next,
                    done: true,
                }
            }
            0xb0 => Told {
                bus: with_auto(next, Auto::Write),
                done: true,
            },
            0xb1 => Told {
                bus: with_auto(next, Auto::Read),
                done: true,
            },
            0xc0 => {
                if pending.count < 1 {
                    return left(bus);
                }
                Told {
                    bus: put(next, mem, pending.newest, Move::Up),
                    done: true,
                }
            }
            0xc1 => Told {
                bus: fetch(next, mem, Move::Up),
                done: true,
            },
            0xc2 => {
                if pending.count < 1 {
                    return left(bus);
                }
                Told {
                    bus: put(next, mem, pending.newest, Move::Down),
                    done: true,
                }
            }
            0xc3 => Told {
                bus: fetch(next, mem, Move::Down),
                done: true,
            },
            0xc4 => {
                if pending.count < 1 {
                    return left(bus);
                }
                Told {
                    bus: put(next, mem, pending.newest, Move::Stay),
                    done: true,
                }
            }
            0xc5 => Told {
                bus: fetch(next, mem, Move::Stay),
                done: true,
            },
            _ => {
                if code < 0xf0 {
                    return left(bus);
                }
                let low = code % 16;
                change(bus.pointer, mem, low % 8, (low >> 3) % 2 == 1);
                Told {
                    bus: next,
                    done: true,
                }
            }
        }
    } else {
        left(bus)
    }
}
