// What is reported of a saved book.
ghost use Rattle.std.specs.Prelude.{◌≡◌, ◌≤◌, take};

/// The bytes kept of a screen's body, and those dropped.
#[derive(Clone, Copy, Debug, PartialEq, Eq)]
pub struct Saved {
    pub kept: usize,
    pub dropped: usize,
}

// An array and a count, since there is no heap.
/// The bytes of a saved book, and a report of each of its screens in their order, at most 64. Behind the count all is 0.
#[derive(Clone, Copy, Debug, PartialEq, Eq)]
pub struct Salvaged {
    pub size: usize,
    pub count: usize,
    pub screens: [Saved; 64],
    ghost few: { count ≤ 64 },
}

impl Salvaged {
    /// Those that stand.
    pub fn all(&self) -> &[Saved]
        ensures { result.now ≡ take self.now.count self.now.screens }
    {
        &self.screens[..self.count]
    }
}
