// Where the pointer stands on the panel.
ghost use Rattle.std.specs.Prelude.{◌≡◌, ◌≤◌};
ghost use Rattle.sight.specs.Located.{located};
ghost use Rattle.sight.specs.Position.{position_of, located_of};

use state::panel::Panel;
use state::registers::Plane;

/// A dot row, below eight times the panel's lines, and a column of it.
#[derive(Clone, Copy, Debug, PartialEq, Eq)]
pub struct Position {
    pub row: usize,
    pub column: usize,
}

// The first in reading order. In a row the pointer stands as far across as it lies past the row's first address.
pub(crate) fn find(panel: Panel, graphic: Plane, pointer: u16) -> Option<Position>
    requires { (panel.columns ≤ 80) × (panel.lines ≤ 32) }
    ensures { located result ≡ position_of panel graphic pointer }
{
    let columns = panel.columns;
    let mut start = graphic.home;
    // no `find`: a row's first address goes on from that of the row before
    for row in 0..8 * panel.lines {
        let across = pointer.wrapping_sub(start) as usize;
        if across < columns {
            return Some(Position {
                row,
                column: across,
            });
        }
        start = start.wrapping_add(graphic.area as u16);
    }
    None
}

/// The first position in reading order that has the pointer's address; a panel that is not valid has none.
pub fn locate(panel: Panel, graphic: Plane, pointer: u16) -> Option<Position>
    ensures { located result ≡ located_of panel graphic pointer }
{
    if panel.valid() {
        return find(panel, graphic, pointer);
    }
    None
}
