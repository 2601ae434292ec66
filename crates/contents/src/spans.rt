// The screens of a book, by where their bodies lie.
ghost use Rattle.std.specs.Prelude.{◌≡◌, ◌≤◌, take};

/// A screen of a book: what it is asked for by, its body's first byte in the book and the byte behind it.
#[derive(Clone, Copy, Debug, PartialEq, Eq)]
pub struct Span {
    pub key: u16,
    pub start: usize,
    pub end: usize,
}

impl Span {
    /// No screen: what stands behind the count.
    pub const NONE: Span = Span {
        key: 0,
        start: 0,
        end: 0,
    };
}

// An array and a count, since there is no heap.
/// The screens of a book in their order, at most 64, and whether it has form two. Behind the count all is 0.
#[derive(Clone, Copy, Debug, PartialEq, Eq)]
pub struct Spans {
    pub two: bool,
    pub count: usize,
    pub spans: [Span; 64],
    ghost few: { count ≤ 64 },
}

impl Spans {
    /// Those that stand.
    pub fn all(&self) -> &[Span]
        ensures { result.now ≡ take self.now.count self.now.spans }
    {
        &self.spans[..self.count]
    }
}
