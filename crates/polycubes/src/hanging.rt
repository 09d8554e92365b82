// Whether the filled cells of a grid hang together by faces: the cells reached from the first one, round by round, as sets of places in the box.
ghost use Rattle.std.specs.Prelude.{◌≡◌, ℕ, ◌<◌, ◌≤◌, take};
ghost use Rattle.lists.specs.Lists.{keep, below};
ghost use Rattle.definitions.specs.Grid.{volume, filled_cells};
ghost use Rattle.definitions.specs.Catalogue.{touches, reached, hangs};
ghost use Rattle.masks.specs.Masks.{has};
ghost use Rattle.shape.specs.Coords.{as_sides, as_cell, ShortSides};
ghost use Rattle.shape.specs.CubicGrids.{grid_of};
ghost use Rattle.polycubes.specs.Hanging.{is_filled_at, near_at, wider_at, cells_of, Within};

use masks::Mask;
use shape::{Coord, CubicGrid, cells, grids};

// Whether two cells share a face: they differ by one, in one coordinate.
#[tactic(auto, unfolding(definitions::specs::Catalogue::touches))]
fn touches(u: Coord, v: Coord) -> bool
    requires { (u.0 ≤ 8) × (u.1 ≤ 8) × (u.2 ≤ 8) × (v.0 ≤ 8) × (v.1 ≤ 8) × (v.2 ≤ 8) }
    ensures { result ≡ touches (as_cell u) (as_cell v) }
{
    u.0.abs_diff(v.0) + u.1.abs_diff(v.1) + u.2.abs_diff(v.2) == 1
}

// The places of the filled cells.
fn filled_places(grid: &CubicGrid) -> Mask
    requires { volume (grid_of grid.now).sides ≤ 128 }
    ensures { has result ≡ is_filled_at (grid_of grid.now) }
{
    let mut filled = Mask::empty();
    // those before place j
    for j in 0..grid.cells.len() {
        if grid.cells[j] == 1 {
            filled = filled.with_cell(j);
        }
    }
    filled
}

// Whether the cell at a place shares a face with one of a set.
fn is_near(s: Coord, got: Mask, j: usize) -> bool
    requires { ShortSides (as_sides s) × (volume (as_sides s) ≤ 128) × (j < volume (as_sides s)) }
    ensures { result ≡ near_at (as_sides s) (has got) j }
{
    let u = cells::cell_at(s, j);
    let v = cells::volume_of(s);
    // none of the set before place i does
    for i in 0..v {
        if got.has_cell(i) && touches(u, cells::cell_at(s, i)) {
            return true;
        }
    }
    false
}

// Whether a round has the cell at a place: it is filled, and reached or next to one that is.
fn is_in_wider(s: Coord, filled: Mask, got: Mask, j: usize) -> bool
    requires { ShortSides (as_sides s) × (volume (as_sides s) ≤ 128) × (j < volume (as_sides s)) }
    ensures { result ≡ wider_at (as_sides s) (has filled) (has got) j }
{
    filled.has_cell(j) && (got.has_cell(j) || is_near(s, got, j))
}

// One round: the filled cells that are reached, or share a face with one that is.
fn wider(s: Coord, filled: Mask, got: Mask) -> Mask
    requires { ShortSides (as_sides s) × (volume (as_sides s) ≤ 128) }
    ensures { has result ≡ wider_at (as_sides s) (has filled) (has got) }
{
    let mut wide = Mask::empty();
    // those before place j
    for j in 0..cells::volume_of(s) {
        if is_in_wider(s, filled, got, j) {
            wide = wide.with_cell(j);
        }
    }
    wide
}

// The first cell of a set alone; none where the set has none.
fn first_alone(set: Mask) -> Mask
    ensures within { Within (has result) (has set) }
    ensures first { (n : ℕ) → n ≤ 128 → keep (has result) (below n) ≡ take 1 (keep (has set) (below n)) }
{
    Mask::empty().with_cell(set.next_cell(0))
}

// The cells that are reached in so many rounds. A round that reaches no further cell is followed by no other that does.
fn reach(s: Coord, filled: Mask, got: Mask, rounds: usize) -> Mask
    requires { ShortSides (as_sides s) × (volume (as_sides s) ≤ 128) × Within (has got) (has filled) }
    ensures within { Within (has result) (has filled) }
    ensures cells { let t = as_sides s in
        cells_of t (has result) ≡ reached rounds (cells_of t (has filled)) (cells_of t (has got)) }
{
    let mut far = got;
    // what `far` reaches in the rounds from i on is what is asked for
    for i in 0..rounds {
        let wide = wider(s, filled, far);
        if wide == far {
            return far;
        }
        far = wide;
    }
    far
}

// Whether the filled cells hang together: with as many rounds as there are further cells, all are reached from the first.
pub(crate) fn hangs(grid: &CubicGrid) -> bool
    requires { volume (grid_of grid.now).sides ≤ 128 }
    ensures { result ≡ hangs (filled_cells (grid_of grid.now)) }
{
    let filled = filled_places(grid);
    let rounds = grids::count_filled(grid.cells).saturating_sub(1);
    reach(grid.sides, filled, first_alone(filled), rounds) == filled
}
