// What is seen of a log, pair by pair.
ghost use Rattle.std.specs.Prelude.{◌≡◌, true, not, ◌&&◌};
ghost use Rattle.inspection.specs.Look.{ready_for, needs_asking, look_asked, look_answered};
ghost use Rattle.inspection.specs.Named.{named_by, looked, is_nothing};

use codes::pair::Kind;
use effects::effect::is_read;
use ground::bytes::bit;
use state::registers::Auto;

/// What an inspection names: the first pair that needed a ready status and had none, and the first recorded answer that is not the controller's
/// own, by its index among the answers. `None` where there is none.
#[derive(Clone, Copy, Debug, Default, PartialEq, Eq)]
pub struct Findings {
    pub unasked: Option<usize>,
    pub wrong: Option<usize>,
}

impl Findings {
    /// Whether neither exists.
    pub fn passes(self) -> bool
        ensures { result ≡ (is_nothing (named_by self.unasked) && is_nothing (named_by self.wrong)) }
    {
        self.unasked.is_none() & self.wrong.is_none()
    }
}

/// Whether a ready status was read since the last pair that needed one, and what is named so far.
#[derive(Clone, Copy, Debug, Default, PartialEq, Eq)]
pub struct Looked {
    pub asked: bool,
    pub named: Findings,
}

// Whether a status answer says that the next access may come, by bits 0 and 1 or in auto by its own.
fn is_ready(auto: Auto, answer: u8) -> bool
    ensures { result ≡ ready_for auto answer }
{
    match auto {
        Auto::Off => answer % 4 == 3,
        Auto::Write => bit(answer, 3) == 1,
        Auto::Read => bit(answer, 2) == 1,
    }
}

// Whether a pair needs a ready status before it: by its number, as the log has it, which need be no kind's.
fn needs(auto: Auto, kind: u8) -> bool
    ensures { result ≡ needs_asking auto kind }
{
    match Kind::try_from(kind) {
        Ok(Kind::Data) | Ok(Kind::Command) => true,
        Ok(Kind::Read) => is_read(auto),
        _ => false,
    }
}

impl Looked {
    // An accepted pair, by the auto mode before it.
    pub(crate) fn look(&mut self, auto: Auto, kind: u8, recorded: u8, place: usize)
        ensures { looked self.new ≡ look_asked auto kind recorded place (looked self.old) }
    {
        let needed = needs(auto, kind);
        let served = matches!(Kind::try_from(kind), Ok(Kind::Status)) & is_ready(auto, recorded);
        let unasked = (needed & !self.asked).then_some(place);
        self.named.unasked = self.named.unasked.or(unasked);
        self.asked = !needed & (self.asked | served);
    }

    // A read's answer beside the recorded one.
    pub(crate) fn compare(&mut self, recorded: u8, own: u8, index: usize)
        ensures { looked self.new ≡ look_answered recorded own index (looked self.old) }
    {
        let wrong = (recorded != own).then_some(index);
        self.named.wrong = self.named.wrong.or(wrong);
    }
}
