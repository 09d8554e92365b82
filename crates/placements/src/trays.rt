// Trays that rows 2 to 9 of the table of refusals let pass.
// That a piece's number is below the count stays a clause: it is an index of the tray that is asked.
ghost use Rattle.placements.specs.Counting.{Accepted9};

use super::{Pieces, records};
use definitions::Record;
use shape::{AxisOrder, CubicGrid, scan};

// A tray as it is lent, that rows 2 to 9 let pass.
#[derive(Clone, Copy)]
pub struct LentTray<'a> {
    pub pieces: Pieces,
    pub board: Record,
    pub bytes: &'a [u8],
    pub ghost accepted: { Accepted9 pieces board bytes.now },
}

impl<'a> LentTray<'a> {
    ghost use Rattle.std.specs.Prelude.{◌≡◌, ◌<◌};
    ghost use Rattle.definitions.specs.Refusals.{sides_of};
    ghost use Rattle.definitions.specs.Scan.{axes};
    ghost use Rattle.shape.specs.Scans.{as_order};
    ghost use Rattle.shape.specs.CubicGrids.{grid_of as cubic};
    ghost use Rattle.placements.specs.Trays.{board_grid, piece_grid};

    // The board's grid.
    pub fn board_grid(&self) -> CubicGrid<'a>
        ensures { cubic result ≡ board_grid self.now }
    {
        records::grid_of(self.bytes, self.board)
    }

    // The order of the board's axes.
    pub fn order(&self) -> AxisOrder
        ensures { as_order result ≡ axes (sides_of self.now.board) }
    {
        scan::plan_axis_order(records::sides_of(self.board))
    }

    // The grid of piece i.
    pub fn piece_grid(&self, i: usize) -> CubicGrid<'a>
        requires { i < self.now.pieces.count }
        ensures { cubic result ≡ piece_grid self.now i }
    {
        records::grid_of(self.bytes, self.pieces.get(i))
    }
}
