// Which rows read one of some addresses that follow one another.
ghost use Rattle.std.specs.Prelude.{◌≡◌, ◌+◌, ◌*◌, ◌/◌, ◌%◌, ◌<◌, ◌≤◌, ◌||◌, ℕ, length, slice_index};
ghost use Rattle.touch.specs.Touch.{plane_row};
ghost use Rattle.touch.specs.Marked.{set_where, marked_of, marks_of};
ghost use Rattle.touch.specs.Ready.{Marking, span_of, reaches_of, code_meets, line_meets, glyph_meets, planes_meet, near_bank, kept_flag};

use state::combination::is_attribute;
use state::panel::Panel;
use state::registers::{Combination, Display, Plane};

// How many places there are for the start of a row of C addresses that meets n others: at most C - 1 before the first of these, or at one of them.
fn span(columns: usize, n: usize) -> usize
    requires { (0 < columns) × (columns ≤ 80) }
    ensures { result ≡ span_of columns n }
{
    if n == 0 {
        return 0;
    }
    n.min(65536) + columns - 1
}

// A row of the panel that begins so far from an address on.
fn reaches(plane: Plane, row: usize, low: u16, span: u16) -> bool
    requires { row < 256 }
    ensures { result ≡ reaches_of plane row low span }
{
    let down = (row as u16) * (plane.area as u16);
    let start = plane.home.wrapping_add(down);
    let from = start.wrapping_sub(low);
    from < span
}

// A code's glyph byte, if it stands in memory.
fn hits(display: Display, code: u8, v: usize, at: u16, n: usize) -> bool
    requires { (display.offset < 32) × (v < 8) }
    ensures { result ≡ code_meets display code v at n }
{
    let from = (2048 * (display.offset as usize) + 8 * (code as usize) + v) as u16;
    let ahead = from.wrapping_sub(at) as usize;
    let from_rom = !display.external & (code < 128);
    !from_rom & (ahead < n)
}

// A graphic byte stands by its dot row, an attribute byte by its line.
fn plane_row(combination: Combination, row: usize) -> usize
    ensures { result ≡ plane_row combination row }
{
    if is_attribute(combination) {
        return row / 8;
    }
    row
}

// a flag is a byte, 1 or 0: C lends the list, to `t6963c_follow` and `t6963c_refresh`
fn kept(set: bool, flag: u8) -> u8
    ensures { result ≡ kept_flag set flag }
{
    if set {
        return 1;
    }
    flag
}

// Addresses that follow one another, `n` from `at` on, and what the rows of a panel read: tested once at the door.
#[derive(Drop)]
struct Stored<'a> {
    panel: Panel,
    display: Display,
    memory: &'a [u8],
    at: u16,
    n: usize,
    ghost marking: { Marking panel display memory.now },
    ghost low: { at < 65536 },
    ghost bytes: { (i : ℕ) → slice_index memory.now i < 256 },
}

impl Stored<'_> {
    // One of the codes of a row's line.
    fn search(&self, row: usize) -> bool
        ensures { result ≡ line_meets self.now.panel self.now.display self.now.memory.now row self.now.at self.now.n }
    {
        let v = row % 8;
        let start = self.display.text.address(row / 8, 0);
        // over columns: a line may run past FFFFH, so that no slice has its codes; with `(0..columns).any(..)` the check found no proof
        for column in 0..self.panel.columns {
            let from = start.wrapping_add(column as u16) as usize;
            if hits(self.display, self.memory[from], v, self.at, self.n) {
                return true;
            }
        }
        false
    }

    // A row's codes are read only where one of the addresses has the row's last three bits.
    fn glyphs(&self, row: usize) -> bool
        ensures { result ≡ glyph_meets self.now.panel self.now.display self.now.memory.now row self.now.at self.now.n }
    {
        let next = (row % 8 + 8 - (self.at as usize) % 8) % 8;
        if next < self.n {
            return self.search(row);
        }
        false
    }

    // Whether the addresses meet the 2,048 bytes at the offset.
    fn near(&self) -> bool
        ensures { result ≡ near_bank self.now.display self.now.at self.now.n }
    {
        let bank = (2048 * (self.display.offset as usize)) as u16;
        let past = self.at.wrapping_sub(bank) as usize;
        let ahead = bank.wrapping_sub(self.at) as usize;
        (past < 2048) | (ahead < self.n)
    }

    // By text and graphic or attribute bytes: a subtraction each, no byte read. All in 16 bits, so that many rows are compared at once: so many
    // places that 16 bits can't say it reach every row.
    fn mark_planes(&self, altered: bool, flags: &mut [u8])
        requires { length flags.old ≡ 8 * self.now.panel.lines }
        ensures { flags.new ≡ set_where self.now.panel (λ r. altered || planes_meet self.now.panel self.now.display self.now.at self.now.n r) flags.old }
    {
        let display = self.display;
        let columns = self.panel.columns;
        let combination = display.combination;
        let low = self.at.wrapping_sub((columns - 1) as u16);
        let places = span(columns, self.n);
        let every = altered | (65535 < places);
        let within = (places % 65536) as u16;
        for (row, flag) in flags.iter_mut().enumerate() {
            let text = reaches(display.text, row / 8, low, within);
            let graphic = reaches(display.graphic, plane_row(combination, row), low, within);
            *flag = kept(every | (text | graphic), *flag);
        }
    }

    // A flag that is 1 stays so whatever the row's codes are.
    fn glyph_flag(&self, row: usize, flag: u8) -> u8
        ensures { result ≡ kept_flag (glyph_meets self.now.panel self.now.display self.now.memory.now row self.now.at self.now.n) flag }
    {
        if flag == 1 {
            return 1;
        }
        kept(self.glyphs(row), flag)
    }

    // By glyph bytes.
    fn mark_glyphs(&self, flags: &mut [u8])
        requires { length flags.old ≡ 8 * self.now.panel.lines }
        ensures { flags.new ≡ set_where self.now.panel (λ r. glyph_meets self.now.panel self.now.display self.now.memory.now r self.now.at self.now.n) flags.old }
    {
        for (row, flag) in flags.iter_mut().enumerate() {
            *flag = self.glyph_flag(row, *flag);
        }
    }

    // The flags of all rows.
    fn mark_rows(&self, altered: bool, flags: &mut [u8])
        requires { length flags.old ≡ 8 * self.now.panel.lines }
        ensures { flags.new ≡ marked_of self.now.panel self.now.display self.now.memory.now self.now.at self.now.n altered flags.old }
    {
        self.mark_planes(altered, flags);
        if self.near() {
            self.mark_glyphs(flags);
        }
    }
}

// Parameters one by one: docs/PROMISES.md names this, and each list is lent by whoever asks.
/// Sets the flags, one of 8 · lines for each dot row, of the rows that read one of `n` addresses from `at` on, or of all where something
/// `altered`. Asked of anything: what is not valid or has another length, and a pair that neither alters nor stores, marks nothing.
pub fn mark(
    panel: Panel,
    display: Display,
    memory: &[u8],
    at: u16,
    n: usize,
    altered: bool,
    flags: &mut [u8],
)
    ensures { flags.new ≡ marks_of panel display memory.now at n altered flags.old }
{
    if panel.valid() {
        let fits = display.valid() & (memory.len() == 65536) & (flags.len() == 8 * panel.lines);
        if fits & (altered | (0 < n)) {
            let stored = Stored {
                panel,
                display,
                memory,
                at,
                n,
            };
            stored.mark_rows(altered, flags);
        }
    }
}
