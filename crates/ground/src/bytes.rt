// Bits of a byte, its low bits, two bytes as a word, the lesser of two numbers.
ghost use Rattle.std.specs.Prelude.{◌≡◌, ◌%◌, ◌^◌, min};
ghost use Rattle.ground.specs.Bytes.{bit_of, with_bit, full_of, word_of};

/// Bit `at` of a byte, 0 above its eight.
pub fn bit(byte: u8, at: usize) -> u8
    ensures { result ≡ bit_of byte at }
{
    if 8 <= at {
        return 0;
    }
    (byte >> at) % 2
}

/// A word given low byte first.
pub fn word(low: u8, high: u8) -> u16
    ensures { result ≡ word_of low high }
{
    u16::from_le_bytes([low, high])
}

/// A byte with a bit set or reset, the bit counted modulo 8.
pub fn with_bit(byte: u8, at: u8, on: bool) -> u8
    ensures { result ≡ with_bit byte at on }
{
    let mask: u8 = 1 << (at % 8);
    if on { byte | mask } else { byte & !mask }
}

/// The low w bits set, all eight past them.
pub fn full(width: usize) -> u8
    ensures { result ≡ full_of width }
{
    if 8 <= width {
        return 255;
    }
    (1 << width) - 1
}

/// The low w bits of a byte.
pub fn low(width: usize, byte: u8) -> u8
    ensures { result ≡ byte % 2 ^ width }
{
    byte & full(width)
}

// a function, though it is `min`: docs/PROMISES.md names it
/// The lesser of two numbers.
pub fn lesser(a: usize, b: usize) -> usize
    ensures { result ≡ min a b }
{
    a.min(b)
}
