// The registers as 25 bytes, and back.
ghost use Rattle.std.specs.Prelude.{◌≡◌, length};
ghost use Rattle.image.specs.Image.{bytes_of, replaced, combination_in, auto_of, is_image, display_of, bus_of, image_state};

use ground::bytes::word;
use state::registers::{
    Auto, Bus, Combination, Cursor, Display, DisplayBits, Pending, Plane, Registers,
};

// The registers as C has them, words low byte first.
fn image(registers: Registers) -> [u8; 25]
    ensures { result ≡ bytes_of registers }
{
    let display = registers.display;
    let bus = registers.bus;
    let bits = display.bits;
    let combination = u8::from(display.combination);
    let external = u8::from(display.external);
    let graphic = u8::from(bits.graphic);
    let text = u8::from(bits.text);
    let cursor = u8::from(bits.cursor);
    let blink = u8::from(bits.blink);
    let auto = u8::from(bus.auto);
    let error = u8::from(bus.error);
    let phase = u8::from(display.phase);
    let [pointer_low, pointer_high] = bus.pointer.to_le_bytes();
    let [text_low, text_high] = display.text.home.to_le_bytes();
    let [graphic_low, graphic_high] = display.graphic.home.to_le_bytes();
    [
        display.cursor.x,
        display.cursor.y,
        display.offset,
        pointer_low,
        pointer_high,
        text_low,
        text_high,
        graphic_low,
        graphic_high,
        display.text.area,
        display.graphic.area,
        combination,
        external,
        graphic,
        text,
        cursor,
        blink,
        display.cursor.height,
        auto,
        bus.pending.count,
        bus.pending.older,
        bus.pending.newest,
        bus.latch,
        error,
        phase,
    ]
}

/// The registers written over a buffer of their length, 25 bytes; another stays.
pub fn encode(registers: Registers, out: &mut [u8])
    ensures { out.new ≡ replaced (bytes_of registers) out.old }
{
    if out.len() == 25 {
        out.copy_from_slice(&image(registers));
    }
}

// kept test by test: each byte has a bound of its own, as in the definition
/// Whether there are 25 bytes, and each that stands for a flag, a combination or an auto mode is one.
pub fn is_readable(bytes: &[u8]) -> bool
    ensures { result ≡ is_image bytes.now }
{
    if bytes.len() != 25 {
        return false;
    }
    (bytes[11] <= 3)
        & (bytes[12] <= 1)
        & (bytes[13] <= 1)
        & (bytes[14] <= 1)
        & (bytes[15] <= 1)
        & (bytes[16] <= 1)
        & (bytes[18] <= 2)
        & (bytes[23] <= 1)
        & (bytes[24] <= 1)
}

// kept, here and below: `decode`, which docs/PROMISES.md names, reads any bytes, and a TryFrom would refuse some
fn combination_of(byte: u8) -> Combination
    ensures { result ≡ combination_in byte }
{
    match byte {
        0 => Combination::Or,
        1 => Combination::Exor,
        2 => Combination::And,
        _ => Combination::Attribute,
    }
}

fn auto_of(byte: u8) -> Auto
    ensures { result ≡ auto_of byte }
{
    match byte {
        0 => Auto::Off,
        1 => Auto::Write,
        _ => Auto::Read,
    }
}

#[tactic(auto, unfolding(crate::specs::Image::display_of))]
fn display_of(bytes: &[u8]) -> Display
    requires { length bytes.now ≡ 25 }
    ensures { result ≡ display_of bytes.now }
{
    let text = Plane {
        home: word(bytes[5], bytes[6]),
        area: bytes[9],
    };
    let graphic = Plane {
        home: word(bytes[7], bytes[8]),
        area: bytes[10],
    };
    let combination = combination_of(bytes[11]);
    Display {
        text,
        graphic,
        offset: bytes[2],
        combination,
        external: bytes[12] == 1,
        bits: DisplayBits {
            graphic: bytes[13] == 1,
            text: bytes[14] == 1,
            cursor: bytes[15] == 1,
            blink: bytes[16] == 1,
        },
        cursor: Cursor {
            x: bytes[0],
            y: bytes[1],
            height: bytes[17],
        },
        phase: bytes[24] == 1,
    }
}

#[tactic(auto, unfolding(crate::specs::Image::bus_of))]
fn bus_of(bytes: &[u8]) -> Bus
    requires { length bytes.now ≡ 25 }
    ensures { result ≡ bus_of bytes.now }
{
    let auto = auto_of(bytes[18]);
    Bus {
        pointer: word(bytes[3], bytes[4]),
        auto,
        pending: Pending {
            count: bytes[19],
            older: bytes[20],
            newest: bytes[21],
        },
        latch: bytes[22],
        error: bytes[23] == 1,
    }
}

/// The registers that 25 bytes stand for, the reset state where there are not 25.
#[tactic(auto, unfolding(crate::specs::Image::image_state))]
pub fn decode(bytes: &[u8]) -> Registers
    ensures { result ≡ image_state bytes.now }
{
    if bytes.len() != 25 {
        return Registers::reset();
    }
    let display = display_of(bytes);
    let bus = bus_of(bytes);
    Registers { display, bus }
}
