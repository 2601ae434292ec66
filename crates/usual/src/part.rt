// What a datum, a command of the display, B2H and a tick do. None pending, a datum and a tick copy and then set a field: with `..bus` in place of
// that stores between status reads took 4.3 ns a pair for 3.8.
ghost use Rattle.std.specs.Prelude.{◌≡◌, not};
ghost use Rattle.state.specs.State.{none};
ghost use Rattle.effects.specs.Effect.{with_pending, with_auto, with_phase, pushed};
ghost use Rattle.usual.specs.Types.{Off};

use effects::effect::{push, with_auto};
use state::registers::{Auto, Bus, Display, Pending};

/// None pending.
pub fn emptied(bus: Bus) -> Bus
    ensures { result ≡ with_pending bus none }
{
    let mut next = bus;
    next.pending = Pending::NONE;
    next
}

/// Auto off, none pending.
pub fn freed(bus: Bus) -> Bus
    ensures { result ≡ with_pending (with_auto bus Off) none }
{
    emptied(with_auto(bus, Auto::Off))
}

/// A datum pending.
pub fn datum(bus: Bus, byte: u8) -> Bus
    ensures { result ≡ with_pending bus (pushed bus.pending byte) }
{
    let mut pending = bus.pending;
    let mut next = bus;
    push(&mut pending, byte);
    next.pending = pending;
    next
}

/// The other phase.
pub fn ticked(display: Display) -> Display
    ensures { result ≡ with_phase display (not display.phase) }
{
    let mut next = display;
    next.phase = !display.phase;
    next
}
