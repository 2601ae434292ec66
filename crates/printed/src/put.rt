// Text put into a lent room, one character behind the other. By hand, and not by `write!`: the theorems on what is printed say which digits
// stand in the room, and a line of some numbers takes a third of the instructions of std's formatting.
ghost use Rattle.std.specs.Prelude.{◌≡◌, [], ◌∷◌, ◌++◌, ◌+◌, ◌*◌, ◌/◌, ◌%◌, ◌≤◌, ◌<◌, length, true, ◌↔◌, OnErr, IsOk};
ghost use Rattle.ground.specs.Packing.{row_bytes};
ghost use Rattle.printed.specs.Put.{Puts, RoomFor};
ghost use Rattle.printed.specs.Text.{decimal, hex_digit, hex_digits, hex_line, hex_lines, dot_line};
ghost use Rattle.printed.specs.Printed.{refusal_line, first_line, frame_lines};

use crate::dot::dot_mark;
use ground::bytes::bit;
use state::panel::Panel;
use std::fmt;

fn hex_digit(d: u8) -> u8
    requires { d < 16 }
    ensures { result ≡ hex_digit d }
{
    if d < 10 { b'0' + d } else { b'A' + (d - 10) }
}

// A byte's two digits.
fn hex_digits(byte: u8) -> [u8; 2]
    ensures { result ≡ hex_digits byte }
{
    [hex_digit(byte / 16), hex_digit(byte % 16)]
}

// Beside layout's `Output` and writer's `Stream`: in common they'd have these two fields, and each puts what the others don't.
/// A text that is being put into a lent room: the next character at `at`.
#[derive(Drop)]
pub struct Text<'a> {
    pub room: &'a mut [u8],
    pub at: usize,
}

impl Text<'_> {
    fn has_room(&self, size: usize) -> bool
        ensures { (result ≡ true) ↔ RoomFor size self.now }
    {
        self.at <= self.room.len() && size <= self.room.len() - self.at
    }

    fn byte(&mut self, byte: u8)
        requires { RoomFor 1 self.old }
        ensures { Puts self.old (byte ∷ []) self.new }
    {
        self.room[self.at] = byte;
        self.at += 1;
    }

    fn bytes(&mut self, bytes: &[u8])
        requires { RoomFor (length bytes.now) self.old }
        ensures { Puts self.old bytes.now self.new }
    {
        let end = self.at + bytes.len();
        self.room[self.at..end].copy_from_slice(bytes);
        self.at = end;
    }

    // A number in decimal: the digits before the last, then the last.
    fn decimal(&mut self, n: usize)
        requires { RoomFor (length (decimal n)) self.old }
        ensures { Puts self.old (decimal n) self.new }
    {
        let last = b'0' + (n % 10) as u8;
        if n < 10 {
            return self.byte(last);
        }
        self.decimal(n / 10);
        self.byte(last);
    }

    /// Characters, if there is room for all of them; else the text stays as it was.
    pub fn add(&mut self, bytes: &[u8])
        ensures room { RoomFor (length bytes.now) self.old → Puts self.old bytes.now self.new }
        ensures none { (RoomFor (length bytes.now) self.old → ⊥) → self.new ≡ self.old }
    {
        if self.has_room(bytes.len()) {
            self.bytes(bytes);
        }
    }

    /// A number in decimal, if there is room for the 20 digits that it may have; else the text stays as it was.
    pub fn add_decimal(&mut self, n: usize)
        ensures room { RoomFor 20 self.old → Puts self.old (decimal n) self.new }
        ensures none { (RoomFor 20 self.old → ⊥) → self.new ≡ self.old }
    {
        if self.has_room(20) {
            self.decimal(n);
        }
    }

    /// A byte's two hex digits, if there is room for both; else the text stays as it was.
    pub fn add_hex(&mut self, byte: u8)
        ensures room { RoomFor 2 self.old → Puts self.old (hex_digits byte) self.new }
        ensures none { (RoomFor 2 self.old → ⊥) → self.new ≡ self.old }
    {
        self.add(&hex_digits(byte));
    }

    /// A word's four hex digits, likewise.
    pub fn add_hex_word(&mut self, word: u16)
        ensures room { RoomFor 4 self.old → Puts self.old (hex_digits (word / 256) ++ hex_digits (word % 256)) self.new }
        ensures none { (RoomFor 4 self.old → ⊥) → self.new ≡ self.old }
    {
        let [first, second] = hex_digits((word / 256) as u8);
        let [third, fourth] = hex_digits((word % 256) as u8);
        self.add(&[first, second, third, fourth]);
    }

    // A word and a number, which has at most 20 digits.
    fn field(&mut self, word: &[u8], n: usize)
        requires { RoomFor (length word.now + 20) self.old }
        ensures puts { Puts self.old (word.now ++ decimal n) self.new }
        ensures upper_bound { self.new.at ≤ self.old.at + length word.now + 20 }
    {
        self.bytes(word);
        self.decimal(n);
    }

    // Refusal and place, to the line's end; at most 56 characters.
    pub(crate) fn refusal(&mut self, number: u8, place: usize)
        requires { RoomFor 56 self.old }
        ensures puts { Puts self.old (refusal_line number place) self.new }
        ensures upper_bound { self.new.at ≤ self.old.at + 56 }
    {
        self.field(b"refusal ", number as usize);
        self.field(b" place ", place);
        self.byte(b'\n');
    }

    // A run's first line, which has at most 112 characters.
    pub(crate) fn first_line(&mut self, pairs: usize, answers: usize, number: u8, place: usize)
        requires { RoomFor 112 self.old }
        ensures puts { Puts self.old (first_line pairs answers number place) self.new }
        ensures upper_bound { self.new.at ≤ self.old.at + 112 }
    {
        self.field(b"pairs ", pairs);
        self.field(b" answers ", answers);
        self.byte(b' ');
        self.refusal(number, place);
    }

    fn hex_line(&mut self, byte: u8)
        requires { RoomFor 3 self.old }
        ensures { Puts self.old (hex_line byte) self.new }
    {
        let [high, low] = hex_digits(byte);
        self.bytes(&[high, low, b'\n']);
    }

    // Answers, one to a line.
    pub(crate) fn hex_lines(&mut self, answers: &[u8])
        requires { RoomFor (3 * length answers.now) self.old }
        ensures { Puts self.old (hex_lines (length answers.now) answers.now) self.new }
    {
        for byte in answers {
            self.hex_line(*byte);
        }
    }

    // A row of dots whose bytes begin at `from`.
    fn dot_line(&mut self, frame: &[u8], from: usize, dots: usize)
        requires { RoomFor (dots + 1) self.old × (from + (dots + 7) / 8 ≤ length frame.now) }
        ensures { Puts self.old (dot_line frame.now from dots) self.new }
    {
        // over numbers: a dot is a bit of a byte
        for x in 0..dots {
            let dot = bit(frame[from + x / 8], 7 - x % 8);
            self.byte(dot_mark(dot));
        }
        self.byte(b'\n');
    }

    // Every row of a frame.
    pub(crate) fn frame_lines(&mut self, panel: Panel, frame: &[u8])
        requires lines_bound { (panel.lines ≤ 32) × (panel.columns * panel.width ≤ 640) }
        requires room_for { RoomFor (8 * panel.lines * (panel.columns * panel.width + 1)) self.old }
        requires frame_len { length frame.now ≡ 8 * panel.lines * row_bytes panel.columns panel.width }
        ensures { Puts self.old (frame_lines panel frame.now) self.new }
    {
        let dots = panel.columns * panel.width;
        let bytes = dots.div_ceil(8);
        let rows = 8 * panel.lines;
        // by number and place: `chunks_exact(bytes)` would stop where a row has no bytes, and this takes such a panel too
        for row in 0..rows {
            self.dot_line(frame, row * bytes, dots);
        }
    }
}

impl fmt::Write for Text<'_> {
    ghost write_str_gives = { λ before bytes after. Puts before bytes after };

    /// The whole text, if there is room for it; else the text stays as it was.
    fn write_str(&mut self, s: &str) -> fmt::Result
        ensures ok { IsOk result → Puts self.old s.now self.new }
        ensures room { IsOk result ↔ RoomFor (length s.now) self.old }
        ensures err { OnErr result (self.new ≡ self.old) }
    {
        if self.has_room(s.len()) {
            self.bytes(s.as_bytes());
            Ok(())
        } else {
            Err(fmt::Error)
        }
    }
}
