// Shapes: the 48 maps, the cells of a box, grids and their turned grids, grids without their empty outer layers, scan order, variants and
// kinds (utils.rs and shape.rs of the original). A grid is lent as its cells, a slice with one byte a cell, and its three sides.
#![tactic(auto)]

ghost use Rattle.std.specs.Prelude.{◌≡◌, ◌+◌, ◌≤◌};
ghost use Rattle.definitions.specs.Grid.{set_down};
ghost use Rattle.definitions.specs.Maps.{side, coordinate};
ghost use Rattle.shape.specs.Coords.{as_sides, as_cell, axis_number};

pub mod cells;
mod constants;
mod cubic_grid;
pub mod grids;
mod lines;
pub mod maps;
mod orders;
pub mod scan;
pub mod stripping;
mod turns;
pub mod variants;

pub use cubic_grid::CubicGrid;
pub use orders::AxisOrder;

// An axis of a box.
#[derive(Clone, Copy, PartialEq, Eq, PartialOrd, Ord)]
pub enum Axis {
    X,
    Y,
    Z,
}

// Three sides of a box, or the three coordinates of a cell.
#[derive(Clone, Copy, PartialEq, Eq, PartialOrd, Ord)]
pub struct Coord(pub usize, pub usize, pub usize);

impl Coord {
    // What stands along an axis.
    #[tactic(auto, unfolding(definitions::specs::Maps::side, definitions::specs::Maps::coordinate))]
    pub fn pick(self, axis: Axis) -> usize
        ensures of_sides { result ≡ side (as_sides self) (axis_number axis) }
        ensures of_cell { result ≡ coordinate (as_cell self) (axis_number axis) }
    {
        match axis {
            Axis::X => self.0,
            Axis::Y => self.1,
            Axis::Z => self.2,
        }
    }

    // Where a cell of a box lies whose corner lies at this cell of another box.
    #[tactic(auto, unfolding(definitions::specs::Grid::set_down))]
    pub fn set_down(self, u: Coord) -> Coord
        requires { (self.0 + u.0 ≤ 8) × (self.1 + u.1 ≤ 8) × (self.2 + u.2 ≤ 8) }
        ensures { as_cell result ≡ set_down (as_cell self) (as_cell u) }
    {
        Coord(self.0 + u.0, self.1 + u.1, self.2 + u.2)
    }
}
