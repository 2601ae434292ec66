// One dot row: its layers laid, the cursor over what comes of them, then packed into the row's own stretch.
ghost use Rattle.std.specs.Prelude.{◌≡◌, length};
ghost use Rattle.ground.specs.Packing.{row_bytes};
ghost use Rattle.display.specs.Frame.{row_of};
ghost use Rattle.display.specs.Drawable.{CursorOver};

use super::cursor::{cursor_covers, cursor_lit};
use super::scene::Scene;
use ground::bytes::full;
use ground::cells::pack;

impl Scene<'_> {
    // The cursor laid over its cell.
    fn lay_cursor(&self, row: usize, cells: &mut [u8])
        requires { length cells.old ≡ self.now.panel.columns }
        ensures { CursorOver self.now.panel self.now.display row cells.old cells.new }
    {
        let display = self.display;
        let lit = cursor_lit(display.bits.cursor, display.bits.blink, display.phase);
        let x = display.cursor.x as usize;
        let covers = cursor_covers(self.panel, display.cursor, row / 8, row % 8, x);
        if lit & covers {
            cells[x] = full(self.panel.width);
        }
    }

    // A row painted; its cells are laid in what is lent.
    pub(crate) fn paint_row(&self, row: usize, cells: &mut [u8], out: &mut [u8])
        requires cells_len { length cells.old ≡ self.now.panel.columns }
        requires out_len { length out.old ≡ row_bytes self.now.panel.columns self.now.panel.width }
        ensures { out.new ≡ row_of self.now.panel self.now.display self.now.mem.now self.now.font.now row }
    {
        self.lay(row, 0, &mut [], &mut [], cells);
        self.lay_cursor(row, cells);
        pack(self.panel.width, cells, out);
    }
}
