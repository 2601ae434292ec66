// Where an operation begins: inside a body that ends inside the book.
ghost use Rattle.std.specs.Prelude.{◌≡◌, ◌<◌, ◌≤◌, length};
ghost use Rattle.book.specs.Operation.{byte_in};

use contents::bytes::byte_at;
use state::panel::Panel;

// The panel, the book, the operation's first byte and the byte behind its body.
#[derive(Drop)]
pub(crate) struct Here<'a> {
    pub panel: Panel,
    pub book: &'a [u8],
    pub at: usize,
    pub end: usize,
    ghost begins: { at < end },
    ghost inside: { end ≤ length book.now },
}

impl Here<'_> {
    // A byte of the operation.
    pub(crate) fn byte(&self, k: usize) -> u8
        requires { k < 256 }
        ensures { result ≡ byte_in self.now.book.now self.now.at k }
    {
        byte_at(self.book, self.at + k)
    }
}
