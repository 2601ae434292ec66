// The dots that differ in two pictures on one panel.
ghost use Rattle.std.specs.Prelude.{◌≡◌, not, ◌+◌, ◌-◌, ◌/◌, ◌%◌, ◌<◌, ◌≤◌, eqb, length, get_or, take};
ghost use Rattle.ground.specs.Bytes.{bit_of};
ghost use Rattle.state.specs.Sizes.{row_size};
ghost use Rattle.display.specs.Frame.{row_of};
ghost use Rattle.comparison.specs.Apart.{how_many, row_apart, dots_apart};
ghost use Rattle.comparison.specs.Ready.{Pictured, Paints};

use display::frame::paint_one;
use entries::list::differ;
use ground::bytes::bit;
use state::panel::Panel;
use state::registers::Display;

fn dot(row: &[u8], x: usize) -> usize
    requires { x / 8 < length row.now }
    ensures { result ≡ bit_of (get_or row.now (x / 8) 0) (7 - x % 8) }
{
    bit(row[x / 8], 7 - x % 8) as usize
}

// How many of two rows' first dots differ.
fn count_dots(one: &[u8], two: &[u8], dots: usize) -> usize
    requires { ((dots + 7) / 8 ≤ length one.now) × ((dots + 7) / 8 ≤ length two.now) }
    ensures { result ≡ how_many dots (λ x. not (eqb (bit_of (get_or one.now (x / 8) 0) (7 - x % 8)) (bit_of (get_or two.now (x / 8) 0) (7 - x % 8)))) }
{
    let mut count: usize = 0;
    // kept over numbers, here and below: a dot is a bit of a byte, a row is painted by its number
    for x in 0..dots {
        count += differ(dot(one, x), dot(two, x));
    }
    count
}

// One by one, as `paint_one` takes them.
// A dot row at the start of eighty bytes, which the longest takes.
fn painted_row(panel: Panel, display: Display, mem: &[u8], rom: &[u8], row: usize) -> [u8; 80]
    requires { Paints panel display mem.now rom.now }
    ensures result_value { take (row_size panel) result ≡ row_of panel display mem.now rom.now row }
    ensures value { 80 ≡ length result }
{
    let size = panel.row_size();
    let mut out = [0u8; 80];
    // not refused, which `Paints` says; `unwrap` would have it proved once more
    let _ = paint_one(panel, display, mem, rom, row, &mut out[..size]);
    out
}

// Two pictures on one panel, each of a display group and a memory of its own.
#[derive(Drop)]
pub(crate) struct Pictures<'a> {
    pub panel: Panel,
    pub first: Display,
    pub one: &'a [u8],
    pub second: Display,
    pub two: &'a [u8],
    pub rom: &'a [u8],
    ghost pictured: { Pictured panel first one.now second two.now rom.now },
}

impl Pictures<'_> {
    // How many dots of a dot row differ.
    fn row_apart(&self, row: usize) -> usize
        ensures { result ≡ row_apart self.now.panel self.now.first self.now.one.now self.now.second self.now.two.now self.now.rom.now row }
    {
        let a = painted_row(self.panel, self.first, self.one, self.rom, row);
        let b = painted_row(self.panel, self.second, self.two, self.rom, row);
        let dots = self.panel.columns * self.panel.width;
        count_dots(&a, &b, dots)
    }

    // How many dots of them differ.
    pub(crate) fn dots_apart(&self) -> usize
        ensures { result ≡ dots_apart self.now.panel self.now.first self.now.one.now self.now.second self.now.two.now self.now.rom.now }
    {
        let rows = 8 * self.panel.lines;
        let mut count: usize = 0;
        for row in 0..rows {
            count += self.row_apart(row);
        }
        count
    }
}
