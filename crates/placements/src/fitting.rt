// Whether a turned piece fits at a cell of the board, and how often.
ghost use Rattle.std.specs.Prelude.{◌≡◌, ◌≤◌, ◌<◌, T, None};
ghost use Rattle.std.specs.List.{last_or};
ghost use Rattle.lists.specs.Lists.{any, how_many};
ghost use Rattle.definitions.specs.Grid.{Grid, InBox, same_cell, filled_cells};
ghost use Rattle.definitions.specs.Refusals.{is_tight};
ghost use Rattle.definitions.specs.Scan.{axes, scan};
ghost use Rattle.definitions.specs.Placements.{reaches, lies, fits};
ghost use Rattle.shape.specs.Coords.{as_sides, as_cell};
ghost use Rattle.shape.specs.CubicGrids.{grid_of};
ghost use Rattle.placements.specs.Poses.{Standing, cells_in, origin_in, variants_in};
ghost use Rattle.placements.specs.Fitting.{fits_pose, lies_on, named, off_board, says_fits, stop_of};

use super::poses::{Pose, Poses};
use shape::{Coord, CubicGrid, cells};

// Whether the origin o of a grid reaches no further than the cell at which it lies.
#[tactic(auto, unfolding(definitions::specs::Placements::reaches))]
fn does_reach(at: Coord, o: Coord) -> bool
    ensures { result ≡ reaches (as_cell at) (as_cell o) }
{
    o.0 <= at.0 && o.1 <= at.1 && o.2 <= at.2
}

// Whether a cell is a filled cell of a grid.
fn is_filled(grid: &CubicGrid, u: Coord) -> bool
    ensures { result ≡ any (same_cell (as_cell u)) (filled_cells (grid_of grid.now)) }
{
    cells::in_box(grid.sides, u) && grid.get(u) == 1
}

// Where the cell u of a grid lies when its origin o lies at a cell of a box whose sides are at most 8.
#[tactic(auto, using(crate::proofs::FittingLaws::reach_parts), unfolding(definitions::specs::Placements::lies))]
pub fn lies_at(at: Coord, o: Coord, u: Coord) -> Coord
    requires { T (reaches (as_cell at) (as_cell o)) × (at.0 ≤ 8) × (at.1 ≤ 8) × (at.2 ≤ 8) × (u.0 ≤ 1023) × (u.1 ≤ 7) × (u.2 ≤ 7) }
    ensures { as_cell result ≡ lies (as_cell at) (as_cell o) (as_cell u) }
{
    Coord(at.0 - o.0 + u.0, at.1 - o.1 + u.1, at.2 - o.2 + u.2)
}

// What the fit test answers: the variant fits; or the cell of it at which the test stopped, by the turned grid's own coordinates.
#[derive(Clone, Copy)]
pub enum Fit {
    Fits,
    StopsAt(Coord),
}

// Whether the cell u of a grid lies on a filled board cell when its cell o lies at a cell of the board's box. (Differences wrap around: what falls before the
// corner of the box is far beyond its end.)
fn lies_on(board: &CubicGrid, at: Coord, o: Coord, u: Coord) -> bool
    requires at { InBox (as_sides board.now.sides) (as_cell at) }
    requires o { (o.0 ≤ 1023) × (o.1 ≤ 7) × (o.2 ≤ 7) }
    requires u { (u.0 ≤ 1023) × (u.1 ≤ 7) × (u.2 ≤ 7) }
    ensures { result ≡ lies_on (grid_of board.now) (as_cell at) (as_cell o) (as_cell u) }
{
    is_filled(
        board,
        Coord(
            (at.0 + u.0).wrapping_sub(o.0),
            (at.1 + u.1).wrapping_sub(o.1),
            (at.2 + u.2).wrapping_sub(o.2),
        ),
    )
}

// The fit test: whether each filled cell of a variant lies on a filled board cell when the origin lies at a cell of the board's box. It goes from the last
// cell to the first, for trays whose gaps lie at the far end, and stops at one that lies on none. (A grid with empty outer layers may have no such cell, and
// yet an origin that reaches further than the cell at which it lies: it does not fit, and its origin is named.)
pub fn test_fit(board: &CubicGrid, pose: &Pose, at: Coord) -> Fit
    requires { InBox (as_sides board.now.sides) (as_cell at) × (pose.now.size ≤ 512) }
    ensures fits { says_fits result ≡ fits_pose (grid_of board.now) (as_cell at) pose.now }
    ensures stop { named result ≡ stop_of (grid_of board.now) (as_cell at) pose.now }
    ensures last { (h : Grid) → T (is_tight h) → cells_in pose.now ≡ filled_cells h → (
        let off = off_board (grid_of board.now) (as_cell at) (origin_in pose.now) in
        named result ≡ last_or None (off (filled_cells h))) }
{
    let o = pose.origin();
    // the cells from k on lie on filled board cells
    for k in (0..pose.size).rev() {
        let u = pose.cell_at(k);
        if !lies_on(board, at, o, u) {
            return Fit::StopsAt(u);
        }
    }
    if does_reach(at, o) {
        Fit::Fits
    } else {
        Fit::StopsAt(o)
    }
}

// Whether a variant fits with its origin at a cell of the board's box. (Where the origin reaches further than the cell it does not, and no cell is looked at,
// since none is named here.)
pub fn fits_pose(board: &CubicGrid, pose: &Pose, at: Coord) -> bool
    requires { InBox (as_sides board.now.sides) (as_cell at) × (pose.now.size ≤ 512) }
    ensures { result ≡ fits_pose (grid_of board.now) (as_cell at) pose.now }
{
    if !does_reach(at, pose.origin()) {
        return false;
    }
    match test_fit(board, pose, at) {
        Fit::Fits => true,
        Fit::StopsAt(_) => false,
    }
}

// How many of the variants fit with their origins at a cell of the board's box.
pub(crate) fn count_at(board: &CubicGrid, poses: &Poses, at: Coord) -> usize
    requires { InBox (as_sides board.now.sides) (as_cell at) × Standing (axes (as_sides board.now.sides)) poses.now }
    ensures { let order = axes (as_sides board.now.sides) in
        let fit = fits (scan order (grid_of board.now)) (as_cell at) in
        (result ≡ how_many fit (variants_in order poses.now)) × (result ≤ poses.now.count) }
{
    poses
        .as_slice()
        .iter()
        .filter(|&pose| fits_pose(board, pose, at))
        .count()
}
