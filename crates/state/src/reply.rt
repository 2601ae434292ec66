// What is returned.
ghost use Rattle.std.specs.Prelude.{◌≡◌};
ghost use Rattle.state.specs.Replies.{reply};

use super::refusal::Refusal;

/// The number that C and the programs give for an answer: 0 where nothing was refused, else the refusal's, 1 to 19.
pub fn number(answer: Result<(), Refusal>) -> u8
    ensures { result ≡ (reply answer).number }
{
    match answer {
        Ok(()) => 0,
        Err(refusal) => refusal.number(),
    }
}
