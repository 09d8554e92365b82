// A board as the pieces are tried on it.
ghost use Rattle.std.specs.Prelude.{length};
ghost use Rattle.shape.specs.CubicGrids.{grid_of};
ghost use Rattle.shape.specs.Scans.{as_order};
ghost use Rattle.placements.specs.Counting.{OnBoard};

use shape::{AxisOrder, CubicGrid};

// A board's grid, the order of its axes, and the places of its filled cells in that order.
#[derive(Clone, Copy)]
pub struct PlannedBoard<'a> {
    pub grid: CubicGrid<'a>,
    pub order: AxisOrder,
    pub places: &'a [u16],
    pub ghost on_board: { OnBoard (as_order order) (grid_of grid) places.now (length places.now) },
}
