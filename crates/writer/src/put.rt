// Pairs put into a room, one behind the other.
ghost use Rattle.std.specs.Prelude.{◌≡◌, true, cond, [], ◌∷◌, map, ◌%◌, ◌/◌, ◌+◌, length, replicate};
ghost use Rattle.state.specs.State.{valid_panel};
ghost use Rattle.codes.specs.Pairs.{kind_number};
ghost use Rattle.single.specs.Outcome.{pair_of};
ghost use Rattle.book.specs.Operation.{cursor};
ghost use Rattle.book.specs.Range.{CursorRange};
ghost use Rattle.writer.specs.Stream.{datum, code, block, operation_pairs};
ghost use Rattle.writer.specs.Put.{Puts, RoomFor};

use codes::pair::{Kind, Pair};
use state::panel::Panel;

/// A datum.
pub fn datum(byte: u8) -> Pair
    ensures { pair_of result ≡ datum byte }
{
    Pair {
        kind: Kind::Data,
        byte,
    }
}

/// A command.
pub fn command(byte: u8) -> Pair
    ensures { pair_of result ≡ code byte }
{
    Pair {
        kind: Kind::Command,
        byte,
    }
}

/// Text, graphics and cursor shown, the cursor steady or blinking.
pub fn cursor_code(blink: bool) -> u8
    ensures { result ≡ cond blink 0x9f 0x9e }
{
    if blink { 0x9f } else { 0x9e }
}

/// The pairs of a cursor on a line and column of a panel, `height` rows high: the line by its Y.
pub fn cursor(panel: Panel, line: u8, column: u8, height: u8, blink: bool) -> [Pair; 5]
    ensures { (valid_panel panel ≡ true) → CursorRange panel line column height → map pair_of result ≡ operation_pairs panel (cursor line column height blink) }
{
    let y = (panel.cursor_y(line) % 256) as u8;
    [
        datum(column),
        datum(y),
        command(0x21),
        command(0xa0u8.wrapping_add(height.wrapping_sub(1))),
        command(cursor_code(blink)),
    ]
}

// Beside layout's `Output` and printed's `Text`: in common they'd have these two fields, and each puts what the others don't.
/// A stream that is being put into a lent room: a kind and a byte for each pair, the next pair at byte `at`.
#[derive(Drop)]
pub struct Stream<'a> {
    pub room: &'a mut [u8],
    pub at: usize,
}

impl Stream<'_> {
    // One pair.
    fn put(&mut self, kind: Kind, byte: u8)
        requires { RoomFor 1 self.old }
        ensures { Puts self.old (record { kind = kind_number kind; byte = byte } ∷ []) self.new }
    {
        self.room[self.at] = kind.number();
        self.room[self.at + 1] = byte;
        self.at += 2;
    }

    // Pairs for which there is room.
    fn put_all(&mut self, pairs: &[Pair])
        requires { RoomFor (length pairs.now) self.old }
        ensures { Puts self.old (map pair_of pairs.now) self.new }
    {
        for pair in pairs {
            self.put(pair.kind, pair.byte);
        }
    }

    /// Pairs, if there is room for all of them; else the stream stays as it was.
    pub fn add(&mut self, pairs: &[Pair])
        ensures room { RoomFor (length pairs.now) self.old → Puts self.old (map pair_of pairs.now) self.new }
        ensures none { (RoomFor (length pairs.now) self.old → ⊥) → self.new ≡ self.old }
    {
        let free = self.room.len().saturating_sub(self.at);
        if (self.at <= self.room.len()) & (pairs.len() <= free / 2) {
            self.put_all(pairs);
        }
    }

    // A command without data.
    pub(crate) fn command(&mut self, byte: u8)
        requires { RoomFor 1 self.old }
        ensures { Puts self.old (code byte ∷ []) self.new }
    {
        self.put(Kind::Command, byte);
    }

    // A command with its two data.
    pub(crate) fn command_with(&mut self, first: u8, second: u8, byte: u8)
        requires { RoomFor 3 self.old }
        ensures { Puts self.old (datum first ∷ datum second ∷ code byte ∷ []) self.new }
    {
        self.put(Kind::Data, first);
        self.put(Kind::Data, second);
        self.command(byte);
    }

    // A command with a word, low byte first.
    pub(crate) fn command_with_word(&mut self, word: u16, byte: u8)
        requires { RoomFor 3 self.old }
        ensures { Puts self.old (datum (word % 256) ∷ datum (word / 256) ∷ code byte ∷ []) self.new }
    {
        let [low, high] = word.to_le_bytes();
        self.command_with(low, high, byte);
    }

    // Bytes as data.
    fn data(&mut self, bytes: &[u8])
        requires { RoomFor (length bytes.now) self.old }
        ensures { Puts self.old (map datum bytes.now) self.new }
    {
        for byte in bytes {
            self.put(Kind::Data, *byte);
        }
    }

    // Beside `data`, as `run` beside `block`: one for both would need an iterator in its contract, no plainer.
    // One byte n times as data.
    fn repeated(&mut self, byte: u8, n: usize)
        requires { RoomFor n self.old }
        ensures { Puts self.old (map datum (replicate n byte)) self.new }
    {
        for _ in 0..n {
            self.put(Kind::Data, byte);
        }
    }

    // Bytes to an address and on.
    pub(crate) fn block(&mut self, address: u16, bytes: &[u8])
        requires { RoomFor (length bytes.now + 5) self.old }
        ensures { Puts self.old (block address bytes.now) self.new }
    {
        self.command_with_word(address, 0x24);
        self.command(0xb0);
        self.data(bytes);
        self.command(0xb2);
    }

    // One byte n times to an address and on.
    pub(crate) fn run(&mut self, address: u16, byte: u8, n: usize)
        requires { RoomFor (n + 5) self.old }
        ensures { Puts self.old (block address (replicate n byte)) self.new }
    {
        self.command_with_word(address, 0x24);
        self.command(0xb0);
        self.repeated(byte, n);
        self.command(0xb2);
    }
}
