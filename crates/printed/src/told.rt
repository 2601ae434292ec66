// What a program has to tell.

// No Result, and the refusal by its number, 0 for none: a refused run prints a text too, and docs/PROMISES.md has the log program's `print`,
// which answers this, give the run's number.
/// The bytes of text at a lent room's start, and the refusal number that they tell.
#[derive(Clone, Copy, Debug, PartialEq, Eq)]
pub struct Told {
    pub count: usize,
    pub number: u8,
}
