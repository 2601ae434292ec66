// The panel.
ghost use Rattle.std.specs.Prelude.{◌≡◌, ◌≤◌};
ghost use Rattle.state.specs.State.{lines_fit, valid_panel};
ghost use Rattle.state.specs.Halves.{cursor_y};
ghost use Rattle.state.specs.Sizes.{row_size, frame_size, cell_count, valid_size};

// No ghost facts: a panel that is not valid is an input too, refused as `Invalid`. Nor a second type with the fact, made at each door: the public
// functions that stand behind the doors take any `Panel`, so that it would be taken apart again at each of them.
/// C columns, L character lines, cells of w dots; dual where it is scanned in two halves.
#[derive(Clone, Copy, Debug, PartialEq, Eq)]
pub struct Panel {
    pub columns: usize,
    pub lines: usize,
    pub width: usize,
    pub dual: bool,
}

impl Panel {
    /// Whether it is one that the controller drives: 1 to 80 columns of 6 or 8 dots, and lines that fit, 1 to 16, or, in two halves, 2 to 32 and even.
    pub fn valid(self) -> bool
        ensures { result ≡ valid_panel self }
    {
        (1 <= self.columns)
            & (self.columns <= 80)
            & lines_fit(self.dual, self.lines)
            & ((self.width == 6) | (self.width == 8))
    }

    // 0 and no Option, here and below: docs/PROMISES.md names these three with that answer.
    /// R, the bytes of a dot row; each size is 0 where the panel is not valid.
    pub fn row_size(self) -> usize
        ensures { result ≡ valid_size self (row_size self) }
    {
        if self.valid() {
            // no `div_ceil`: it divides by a value, and nothing under the painter divides
            (self.columns * self.width + 7) / 8
        } else {
            0
        }
    }

    /// 8·L·R, the bytes of a frame.
    pub fn frame_size(self) -> usize
        ensures value { result ≡ valid_size self (frame_size self) }
        ensures upper_bound { result ≤ 20480 }
    {
        if self.valid() {
            8 * self.lines * self.row_size()
        } else {
            0
        }
    }

    /// C·L, the text plane's bytes.
    pub fn cell_count(self) -> usize
        ensures value { result ≡ valid_size self (cell_count self) }
        ensures upper_bound { result ≤ 2560 }
    {
        if self.valid() {
            self.lines * self.columns
        } else {
            0
        }
    }

    /// The cursor's Y on a line: the lower half's lines begin with 16.
    pub fn cursor_y(self, line: u8) -> usize
        ensures { result ≡ cursor_y self line }
    {
        let half = self.lines / 2;
        if self.dual & (half <= line as usize) {
            return 16 + (line as usize - half);
        }
        line as usize
    }
}

fn lines_fit(dual: bool, lines: usize) -> bool
    ensures { result ≡ lines_fit dual lines }
{
    if dual {
        return (2 <= lines) & (lines <= 32) & (lines % 2 == 0);
    }
    (1 <= lines) & (lines <= 16)
}
