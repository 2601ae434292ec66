// The layers of a dot row from a column on, laid into its cells one over the other, from the left. What does not depend on the column is
// worked out once, and a layer's address goes on by one, round, from cell to cell. Nothing else computes a displayed byte.
ghost use Rattle.std.specs.Prelude.{◌≡◌, not, ◌&&◌, ◌⊎◌, ◌+◌, ◌≤◌, length};
ghost use Rattle.ground.specs.Lists.{build};
ghost use Rattle.state.specs.Combination.{is_attribute};
ghost use Rattle.display.specs.Displayed.{glyph_dots, text_dots, graphic_dots};
ghost use Rattle.display.specs.Layers.{layers_at};
ghost use Rattle.display.specs.Shaded.{Shaded};
ghost use Rattle.display.specs.Drawable.{GraphicOver};

use super::scene::Scene;
use ground::stretches::{clear, give, look_up, read_round};
use state::attribute::{shade, shades};
use state::combination::{is_attribute, mix_round};
use state::panel::Panel;
use state::registers::Display;

// The table of a state: in attribute mode the shades, else none are asked for.
pub(crate) fn tables(panel: Panel, display: Display) -> [u8; 32]
    requires { (panel.width ≡ 6) ⊎ (panel.width ≡ 8) }
    ensures shaded { Shaded panel display result }
    ensures value { 32 ≡ length result }
{
    if is_attribute(display.combination) {
        return shades(panel.width, display.phase);
    }
    [0u8; 32]
}

// Whether the graphic has dots: it is on, and not read as attributes.
fn has_dots(display: Display) -> bool
    ensures { result ≡ (display.bits.graphic && not (is_attribute display.combination)) }
{
    display.bits.graphic & !is_attribute(display.combination)
}

impl Scene<'_> {
    // The glyph rows of the line's codes: first the codes, then what the font has for them.
    fn lay_glyphs(&self, row: usize, column: usize, cells: &mut [u8])
        ensures { cells.new ≡ build (length cells.old) (λ j. glyph_dots self.now.panel self.now.display self.now.mem.now self.now.font.now row (column + j)) }
    {
        let at = self.display.text.address(row / 8, column);
        read_round(8, self.mem, at, cells);
        look_up(self.panel.width, self.font, row % 8, cells);
    }

    // The text's dots: the glyph rows, and in attribute mode the line's attributes over them.
    fn lay_text(&self, row: usize, column: usize, cells: &mut [u8])
        ensures { cells.new ≡ build (length cells.old) (λ j. text_dots self.now.panel self.now.display self.now.mem.now self.now.font.now row (column + j)) }
    {
        let display = self.display;
        if !display.bits.text {
            clear(cells);
            return;
        }
        self.lay_glyphs(row, column, cells);
        if is_attribute(display.combination) & display.bits.graphic {
            let at = display.graphic.address(row / 8, column);
            shade(self.panel.width, self.mem, at, self.shades, cells);
        }
    }

    // The graphic's dots given out, as far as they are asked for.
    fn give_graphic(&self, row: usize, column: usize, graphic: &mut [u8])
        ensures { graphic.new ≡ build (length graphic.old) (λ j. graphic_dots self.now.panel self.now.display self.now.mem.now row (column + j)) }
    {
        let display = self.display;
        if has_dots(display) {
            let at = display.graphic.address(row, column);
            read_round(self.panel.width, self.mem, at, graphic);
            return;
        }
        clear(graphic);
    }

    // The graphic's dots, mixed with the text's that stand there.
    fn lay_graphic(&self, row: usize, column: usize, cells: &mut [u8])
        ensures { GraphicOver self.now.panel self.now.display self.now.mem.now row column cells.old cells.new }
    {
        let display = self.display;
        if has_dots(display) {
            let at = display.graphic.address(row, column);
            mix_round(
                display.bits,
                display.combination,
                self.panel.width,
                self.mem,
                at,
                cells,
            );
        }
    }

    // The routine that yields a displayed byte: the layers of a dot row from a column on. What comes of them fills its list; text and graphic
    // are given out as far as their lists go, the painter's to no cell.
    pub(crate) fn lay(
        &self,
        row: usize,
        column: usize,
        text: &mut [u8],
        graphic: &mut [u8],
        shown: &mut [u8],
    )
        requires text_in_bounds { length text.old ≤ length shown.old }
        ensures text_after { text.new ≡ build (length text.old) (λ j. (layers_at self.now.panel self.now.display self.now.mem.now self.now.font.now row (column + j)).text) }
        ensures graphic_after { graphic.new ≡ build (length graphic.old) (λ j. (layers_at self.now.panel self.now.display self.now.mem.now self.now.font.now row (column + j)).graphic) }
        ensures shown_after { shown.new ≡ build (length shown.old) (λ j. (layers_at self.now.panel self.now.display self.now.mem.now self.now.font.now row (column + j)).shown) }
    {
        self.lay_text(row, column, shown);
        give(shown, text);
        self.give_graphic(row, column, graphic);
        self.lay_graphic(row, column, shown);
    }
}
