// Parts of a book put into an output.
ghost use Rattle.std.specs.Prelude.{◌+◌, ◌<◌, ◌≤◌, length};
ghost use Rattle.contents.specs.Contents.{entries_at, entry_size};
ghost use Rattle.layout.specs.Puts.{Puts};
ghost use Rattle.layout.specs.Laid.{word_bytes, entry_bytes, head_bytes};

// Beside printed's `Text` and writer's `Stream`: in common they'd have these two fields, and each puts what the others don't.
/// A book that is being laid out: what is put next begins at byte `at` of the output.
#[derive(Drop)]
pub(crate) struct Output<'a> {
    pub out: &'a mut [u8],
    pub at: usize,
}

impl Output<'_> {
    // Bytes, behind those before.
    pub(crate) fn put(&mut self, bytes: &[u8])
        requires { self.old.at + length bytes.now ≤ length self.old.out.now }
        ensures { Puts self.old bytes.now self.new }
    {
        let end = self.at + bytes.len();
        self.out[self.at..end].copy_from_slice(bytes);
        self.at = end;
    }

    // 16 bits, low byte first.
    fn put_word(&mut self, value: u16)
        requires { self.old.at + 2 ≤ length self.old.out.now }
        ensures { Puts self.old (word_bytes value) self.new }
    {
        self.put(&value.to_le_bytes());
    }

    // The form as a `bool`, here and below, as contents' `entry_size` takes it (docs/PROMISES.md).
    // An entry: offset and length, in form two the identity before them.
    pub(crate) fn put_entry(&mut self, two: bool, key: u16, start: usize, size: usize)
        requires { (self.old.at + entry_size two ≤ length self.old.out.now) × (start < 65536) × (size < 65536) }
        ensures { Puts self.old (entry_bytes two key start size) self.new }
    {
        if two {
            self.put_word(key);
        }
        self.put_word(start as u16);
        self.put_word(size as u16);
    }

    // n, in form two 0 before it.
    pub(crate) fn put_head(&mut self, two: bool, n: usize)
        requires { (self.old.at + entries_at two ≤ length self.old.out.now) × (n < 256) }
        ensures { Puts self.old (head_bytes two n) self.new }
    {
        if two {
            self.put(&[0, n as u8]);
        } else {
            self.put(&[n as u8]);
        }
    }
}
