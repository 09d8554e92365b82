// The three tests of an entry of the catalogue.
ghost use Rattle.std.specs.Prelude.{◌≡◌, ◌&&◌, ◌+◌, ◌≤◌, eqb};
ghost use Rattle.definitions.specs.Grid.{volume, same_grid};
ghost use Rattle.definitions.specs.Kinds.{smallest};
ghost use Rattle.definitions.specs.Maps.{coordinate, side};
ghost use Rattle.definitions.specs.Refusals.{filled_where, is_tight};
ghost use Rattle.definitions.specs.Catalogue.{is_smallest_piece};
ghost use Rattle.shape.specs.Coords.{axis_number};
ghost use Rattle.shape.specs.CubicGrids.{grid_of};

use super::hanging;
use shape::maps::Map;
use shape::{Axis, CubicGrid, cells, variants};

// Whether a layer of a grid has a filled cell.
fn is_layer_filled(grid: &CubicGrid, axis: Axis, at: usize) -> bool
    ensures { result ≡ filled_where (grid_of grid.now) (λ u. eqb (coordinate u (axis_number axis)) at) }
{
    // no filled cell before place j lies in it
    for j in 0..grid.cells.len() {
        if grid.cells[j] == 1 && cells::cell_at(grid.sides, j).pick(axis) == at {
            return true;
        }
    }
    false
}

// Whether the outer layers across an axis have filled cells, both of them. (A grid with a cell in its first layer has a last one.)
fn is_tight_along(grid: &CubicGrid, axis: Axis) -> bool
    ensures { let g = grid_of grid.now in
        result ≡ filled_where g (λ u. eqb (coordinate u (axis_number axis)) 0)
        && filled_where g (λ u. eqb (coordinate u (axis_number axis) + 1) (side g.sides (axis_number axis))) }
{
    is_layer_filled(grid, axis, 0) && is_layer_filled(grid, axis, grid.sides.pick(axis) - 1)
}

// Whether no outer layer is empty.
#[tactic(auto, using(crate::proofs::LayerLaws::tight_by))]
fn is_tight(grid: &CubicGrid) -> bool
    ensures { result ≡ is_tight (grid_of grid.now) }
{
    is_tight_along(grid, Axis::X)
        && (is_tight_along(grid, Axis::Y) && is_tight_along(grid, Axis::Z))
}

// Whether a grid is its smallest turned grid.
fn is_smallest(grid: &CubicGrid) -> bool
    ensures { result ≡ same_grid (smallest (grid_of grid.now)) (grid_of grid.now) }
{
    let m = variants::smallest_of(grid, Map(0));
    grid.compare_turned(m, grid, Map(0)).is_eq()
}

// Whether a grid is an entry: a piece, hanging together, as its smallest turned grid.
#[tactic(auto, unfolding(definitions::specs::Catalogue::is_smallest_piece))]
pub(crate) fn is_smallest_piece(grid: &CubicGrid) -> bool
    requires { volume (grid_of grid.now).sides ≤ 128 }
    ensures { result ≡ is_smallest_piece (grid_of grid.now) }
{
    is_tight(grid) && (hanging::hangs(grid) && is_smallest(grid))
}
