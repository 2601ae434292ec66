// The registers, in two groups: what decides the picture, and what decides how the next access is taken.
ghost use Rattle.std.specs.Prelude.{◌≡◌, true};
ghost use Rattle.state.specs.Address.{address_of};
ghost use Rattle.state.specs.Codes.{combination_byte, auto_byte};
ghost use Rattle.state.specs.State.{valid_display, valid_bus, valid_registers, reset_registers};

/// The home and the area of text or of graphic.
#[derive(Clone, Copy, Debug, PartialEq, Eq)]
pub struct Plane {
    pub home: u16,
    pub area: u8,
}

/// The cursor's column, its Y and its height in rows, 1 to 8.
#[derive(Clone, Copy, Debug, PartialEq, Eq)]
pub struct Cursor {
    pub x: u8,
    pub y: u8,
    pub height: u8,
}

/// The four display bits.
#[derive(Clone, Copy, Debug, PartialEq, Eq)]
pub struct DisplayBits {
    pub graphic: bool,
    pub text: bool,
    pub cursor: bool,
    pub blink: bool,
}

/// How text and graphic make one picture.
#[derive(Clone, Copy, Debug, PartialEq, Eq)]
pub enum Combination {
    Or,
    Exor,
    And,
    Attribute,
}

/// All that decides what the panel shows. The phase is true where it is normal, false where it is off.
#[derive(Clone, Copy, Debug, PartialEq, Eq)]
pub struct Display {
    pub text: Plane,
    pub graphic: Plane,
    pub offset: u8,
    pub combination: Combination,
    pub external: bool,
    pub bits: DisplayBits,
    pub cursor: Cursor,
    pub phase: bool,
}

/// Whether data go to and from memory one behind the other, and which way.
#[derive(Clone, Copy, Debug, PartialEq, Eq)]
pub enum Auto {
    Off,
    Write,
    Read,
}

/// The last data written, 0 to 2 of them: one alone stands in newest, and a place that is not used holds 0.
#[derive(Clone, Copy, Debug, PartialEq, Eq)]
pub struct Pending {
    pub count: u8,
    pub older: u8,
    pub newest: u8,
}

// `auto` comes first and makes it ten bytes: one of eight would be carried about as a single number (docs/SPEED.md).
/// All that decides how the next access is taken.
#[derive(Clone, Copy, Debug, PartialEq, Eq)]
pub struct Bus {
    pub auto: Auto,
    pub pointer: u16,
    pub pending: Pending,
    pub latch: u8,
    pub error: bool,
}

/// All registers.
#[derive(Clone, Copy, Debug, PartialEq, Eq)]
pub struct Registers {
    pub display: Display,
    pub bus: Bus,
}

/// What the two data of a command set.
#[derive(Clone, Copy, Debug, PartialEq, Eq)]
pub enum Target {
    Cursor,
    Offset,
    Pointer,
    TextHome,
    TextArea,
    GraphicHome,
    GraphicArea,
}

/// How the pointer moves after a store or a load.
#[derive(Clone, Copy, Debug, PartialEq, Eq)]
pub enum Move {
    Up,
    Down,
    Stay,
}

impl From<Combination> for u8 {
    ghost from_gives = { λ combination byte. byte ≡ combination_byte combination };

    fn from(combination: Combination) -> u8 {
        combination as u8
    }
}

impl From<Auto> for u8 {
    ghost from_gives = { λ auto byte. byte ≡ auto_byte auto };

    fn from(auto: Auto) -> u8 {
        auto as u8
    }
}

impl Pending {
    /// Nothing written, or all of it taken.
    pub const NONE: Pending = Pending {
        count: 0,
        older: 0,
        newest: 0,
    };
}

impl Plane {
    /// Where it has the byte of a row in a column.
    pub fn address(self, row: usize, column: usize) -> u16
        ensures { result ≡ address_of self row column }
    {
        let down = ((row % 65536) * (self.area as usize) % 65536) as u16;
        let across = (column % 65536) as u16;
        self.home.wrapping_add(down).wrapping_add(across)
    }
}

impl Display {
    /// Whether it is one that commands can make: X below 128, Y and offset below 32, a height of 1 to 8.
    pub fn valid(self) -> bool
        ensures { result ≡ valid_display self }
    {
        (self.cursor.x < 128)
            & (self.cursor.y < 32)
            & (self.offset < 32)
            & (1 <= self.cursor.height)
            & (self.cursor.height <= 8)
    }
}

impl Bus {
    /// Whether it is one that accesses can make: at most two data pending, and 0 in a place that is not used.
    pub fn valid(self) -> bool
        ensures { result ≡ valid_bus self }
    {
        (self.pending.count <= 2)
            & ((self.pending.older == 0) | (self.pending.count == 2))
            & ((self.pending.newest == 0) | (1 <= self.pending.count))
    }
}

impl Registers {
    /// Whether both groups are.
    pub fn valid(self) -> bool
        ensures { result ≡ valid_registers self }
    {
        self.display.valid() & self.bus.valid()
    }

    /// The state after a reset, which is valid.
    pub fn reset() -> Registers
        ensures value { result ≡ reset_registers }
        ensures result_value { valid_registers result ≡ true }
    {
        let plane = Plane { home: 0, area: 0 };
        Registers {
            display: Display {
                text: plane,
                graphic: plane,
                offset: 0,
                combination: Combination::Or,
                external: false,
                bits: DisplayBits {
                    graphic: false,
                    text: false,
                    cursor: false,
                    blink: false,
                },
                cursor: Cursor {
                    x: 0,
                    y: 0,
                    height: 1,
                },
                phase: true,
            },
            bus: Bus {
                pointer: 0,
                auto: Auto::Off,
                pending: Pending::NONE,
                latch: 0,
                error: false,
            },
        }
    }
}
