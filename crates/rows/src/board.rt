// The board of a tray whose rows are built.
ghost use Rattle.shape.specs.CubicGrids.{grid_of};
ghost use Rattle.shape.specs.Scans.{as_order};
ghost use Rattle.rows.specs.Boards.{Numbered};

use placements::planned::PlannedBoard;

// A board, and for each place of its box the scan number of the cell there: how many filled cells there are where it is unfilled.
// (No Option, as in the chart: no cell has that number.)
#[derive(Clone, Copy)]
pub(crate) struct NumberedBoard<'a> {
    pub planned: PlannedBoard<'a>,
    pub scans: [u8; 512],
    pub ghost numbered: { Numbered (as_order planned.order) (grid_of planned.grid) scans },
}
