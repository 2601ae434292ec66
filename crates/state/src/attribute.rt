// The attribute codes.
ghost use Rattle.std.specs.Prelude.{◌≡◌, ◌^◌, ◌<◌, min, not, ◌&&◌, if◌then◌else◌};
ghost use Rattle.ground.specs.Bytes.{full_of};
ghost use Rattle.ground.specs.Lists.{build};
ghost use Rattle.state.specs.Attribute.{look_of, shown_as, shades_of, shaded_round};

use ground::bytes::full;

/// How a glyph row is shown.
#[derive(Clone, Copy, Debug, PartialEq, Eq)]
pub enum Manner {
    Normal,
    Reverse,
    Inhibit,
}

/// What the table has for an attribute code.
#[derive(Clone, Copy, Debug, PartialEq, Eq)]
pub struct Look {
    pub shown: Manner,
    pub blinks: bool,
}

const NORMAL: Look = Look {
    shown: Manner::Normal,
    blinks: false,
};

const REVERSE: Look = Look {
    shown: Manner::Reverse,
    blinks: false,
};

const INHIBIT: Look = Look {
    shown: Manner::Inhibit,
    blinks: false,
};

const NORMAL_BLINKING: Look = Look {
    shown: Manner::Normal,
    blinks: true,
};

const REVERSE_BLINKING: Look = Look {
    shown: Manner::Reverse,
    blinks: true,
};

const INHIBIT_BLINKING: Look = Look {
    shown: Manner::Inhibit,
    blinks: true,
};

// The ten codes that the makers' documents do not list.
const LEFT_OVER: Look = NORMAL;

const LEFT_OVER_BLINKING: Look = NORMAL_BLINKING;

// One row for each of the sixteen attribute codes.
const LOOKS: [Look; 16] = [
    NORMAL,
    LEFT_OVER,
    LEFT_OVER,
    INHIBIT,
    LEFT_OVER,
    REVERSE,
    LEFT_OVER,
    LEFT_OVER,
    NORMAL_BLINKING,
    LEFT_OVER_BLINKING,
    LEFT_OVER_BLINKING,
    INHIBIT_BLINKING,
    LEFT_OVER_BLINKING,
    REVERSE_BLINKING,
    LEFT_OVER_BLINKING,
    LEFT_OVER_BLINKING,
];

/// The table, for all that look codes up in it.
pub fn looks() -> [Look; 16]
    ensures { result ≡ build 16 look_of }
{
    LOOKS
}

// The w bits of a glyph row under a row of the table.
fn look_shows(look: Look, width: usize, normal: bool, dots: u8) -> u8
    requires { dots < 2 ^ min width 8 }
    ensures { result ≡ (if look.blinks && not normal then 0 else shown_as look.shown (min width 8) dots) }
{
    if look.blinks & !normal {
        return 0;
    }
    match look.shown {
        Manner::Normal => dots,
        Manner::Reverse => full(width) - dots,
        Manner::Inhibit => 0,
    }
}

// Dots that are all set, or all reset.
fn all_or_none(width: usize, set: bool) -> u8
    ensures { result ≡ (if set then full_of width else 0) }
{
    if set {
        return full(width);
    }
    0
}

// Two tables in one array: docs/PROMISES.md names this, and the definition `shades_of` has one list.
/// What dots that are all set, then all reset, become under each of the sixteen codes; eight are the most.
pub fn shades(width: usize, normal: bool) -> [u8; 32]
    ensures { result ≡ shades_of (min width 8) normal }
{
    let table = looks();
    let mut made = [0u8; 32];
    for (n, shade) in made.iter_mut().enumerate() {
        let look = table[n % 16];
        *shade = look_shows(look, width, normal, all_or_none(width, n < 16));
    }
    made
}

/// Cells of w dots under their attributes, which stand from an address on, round: of each dot what its code makes of one that is set or reset.
/// Another length of memory or table leaves them as they were.
pub fn shade(width: usize, mem: &[u8], start: u16, table: &[u8], cells: &mut [u8])
    ensures { cells.new ≡ shaded_round width mem.now start table.now cells.old }
{
    if (mem.len() == 65536) & (table.len() == 32) {
        let all = full(width);
        // by hand, as in `ground::stretches::read_round`
        let mut at = start;
        for cell in cells.iter_mut() {
            let code = (mem[at as usize] % 16) as usize;
            let dots = *cell;
            let others = all.wrapping_sub(dots);
            *cell = (dots & table[code]) | (others & table[code + 16]);
            at = at.wrapping_add(1);
        }
    }
}
