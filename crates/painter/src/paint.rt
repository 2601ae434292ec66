// The picture's dots, row by row, each row into its own stretch of the frame.
ghost use Rattle.std.specs.Prelude.{◌≡◌, ◌*◌, ◌<◌, length};
ghost use Rattle.ground.specs.Packing.{row_bytes, row_from, frame_from};
ghost use Rattle.state.specs.Sizes.{frame_size};
ghost use Rattle.painter.specs.Ready.{shown};

use super::scene::Scene;
use ground::cells::pack;

impl Scene<'_> {
    // The cells of a dot row, at most eighty, gathered and packed.
    fn paint_row(&self, row: usize, out: &mut [u8])
        requires row_bound { row < 8 * self.now.panel.lines }
        requires room { length out.old ≡ row_bytes self.now.panel.columns self.now.panel.width }
        ensures { out.new ≡ row_from self.now.panel.columns self.now.panel.width (shown self.now row) }
    {
        let mut room = [0u8; 80];
        let cells = &mut room[..self.panel.columns];
        for (column, cell) in cells.iter_mut().enumerate() {
            *cell = self.cell(row, column);
        }
        pack(self.panel.width, cells, out);
    }

    // Every dot row, row r from r times R.
    #[tactic(auto, unfolding(ground::specs::Packing::frame_from))]
    pub(crate) fn paint(&self, frame: &mut [u8])
        requires { length frame.old ≡ frame_size self.now.panel }
        ensures { let p = self.now.panel in frame.new ≡ frame_from p.columns p.lines p.width (shown self.now) }
    {
        let bytes = self.panel.row_size();
        // not `chunks_exact_mut`: behind that adapter a proof knows nothing of what is written
        for row in 0..8 * self.panel.lines {
            let at = row * bytes;
            self.paint_row(row, &mut frame[at..at + bytes]);
        }
    }
}
