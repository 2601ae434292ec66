// The byte of a picture's cell in a dot row.
ghost use Rattle.std.specs.Prelude.{◌≡◌, ◌<◌};
ghost use Rattle.picture.specs.Layers.{glyph_in, plane_text, plane_graphic};
ghost use Rattle.painter.specs.Ready.{OnPanel, shown};

use super::cursor::covers;
use super::scene::Scene;
use ground::bytes::{full, low};
use state::combination::combine;

impl Scene<'_> {
    // The glyph row of a code.
    #[tactic(auto, unfolding(picture::specs::Layers::glyph_in))]
    fn glyph_row(&self, code: u8, v: usize) -> u8
        requires { v < 8 }
        ensures { result ≡ glyph_in self.now.rom.now self.now.glyphs.now code v }
    {
        let k = code as usize;
        if k < 0x80 {
            self.rom[8 * k + v]
        } else {
            self.glyphs[8 * (k - 0x80) + v]
        }
    }

    #[tactic(auto, unfolding(picture::specs::Layers::plane_text))]
    fn text_dots(&self, row: usize, column: usize) -> u8
        requires { OnPanel self.now.panel row column }
        ensures { let s = self.now in result ≡ plane_text s.panel s.rom.now s.codes.now s.glyphs.now row column }
    {
        let at = row / 8 * self.panel.columns + column;
        low(self.panel.width, self.glyph_row(self.codes[at], row % 8))
    }

    #[tactic(auto, unfolding(picture::specs::Layers::plane_graphic))]
    fn graphic_dots(&self, row: usize, column: usize) -> u8
        requires { OnPanel self.now.panel row column }
        ensures { result ≡ plane_graphic self.now.panel self.now.graphic.now row column }
    {
        let at = row * self.panel.columns + column;
        low(self.panel.width, self.graphic[at])
    }

    // Both layers combined, the cursor laid over.
    #[tactic(auto, unfolding(picture::specs::Picture::picture_cell))]
    pub(crate) fn cell(&self, row: usize, column: usize) -> u8
        requires { OnPanel self.now.panel row column }
        ensures { result ≡ shown self.now row column }
    {
        let lit = self.style.lit(self.phase);
        let covered = covers(self.style.cursor, self.panel, row / 8, row % 8, column);
        if lit & covered {
            return full(self.panel.width);
        }
        let text = self.text_dots(row, column);
        let dots = self.graphic_dots(row, column);
        combine(self.style.combination, text, dots)
    }
}
