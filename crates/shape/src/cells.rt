// Cells of a box and their places: x slowest, z fastest. Sides are a plain `Coord` that each function asks to be short: those of a grid that is lent whole
// are, but so are a part's, a mapped box's and a record's that was let pass, and a type for sides would be made anew at each such call. A cell is a plain
// `Coord` that is asked to lie in a box (`InBox`): this ties it to sides that another owns, and one cell is asked of two boxes.
ghost use Rattle.std.specs.Prelude.{cond, ◌≡◌, ◌+◌, ◌<◌, ◌≤◌, ◌↔◌, IsTrue};
ghost use Rattle.definitions.specs.Grid.{volume, place_of, InBox};
ghost use Rattle.definitions.specs.Maps.{map_of};
ghost use Rattle.shape.specs.Coords.{as_sides, as_cell, ShortSides, are_short};
ghost use Rattle.shape.specs.Places.{cell_at, image_place, source_place};

use super::Coord;
use super::maps::Map;

// How many cells a box has whose sides are at most 8.
#[tactic(auto, using(crate::proofs::PlaceLaws::volume_fits), unfolding(definitions::specs::Grid::volume))]
pub(crate) fn volume_of_short(s: Coord) -> usize
    requires { ShortSides (as_sides s) }
    ensures { (result ≡ volume (as_sides s)) × (result ≤ 512) }
{
    s.0 * s.1 * s.2
}

// Whether no side of a box is above 8.
pub(crate) fn are_short(s: Coord) -> bool
    ensures { IsTrue result ↔ ShortSides (as_sides s) }
{
    s.0 <= 8 && s.1 <= 8 && s.2 <= 8
}

// How many cells a box has; 0 where a side is above 8. (No Option: of such sides no grid is lent, and a number of cells is what callers take.)
pub fn volume_of(s: Coord) -> usize
    ensures { (result ≡ cond (are_short (as_sides s)) (volume (as_sides s)) 0) × (result ≤ 512) }
{
    if are_short(s) { volume_of_short(s) } else { 0 }
}

// Whether a box has a cell.
pub fn in_box(s: Coord, u: Coord) -> bool
    ensures { IsTrue result ↔ InBox (as_sides s) (as_cell u) }
{
    u.0 < s.0 && u.1 < s.1 && u.2 < s.2
}

// The place of a cell of a box.
pub fn place(s: Coord, u: Coord) -> usize
    requires { ShortSides (as_sides s) × InBox (as_sides s) (as_cell u) }
    ensures { (result ≡ place_of (as_sides s) (as_cell u)) × (result < volume (as_sides s)) }
{
    (u.0 * s.1 + u.1) * s.2 + u.2
}

// The cell at a place of a box.
pub fn cell_at(s: Coord, i: usize) -> Coord
    requires { ShortSides (as_sides s) × (i < volume (as_sides s)) }
    ensures { (as_cell result ≡ cell_at (as_sides s) i) × InBox (as_sides s) (as_cell result) }
{
    Coord(i / (s.1 * s.2), i / s.2 % s.1, i % s.2)
}

// The cell behind a cell of a box: z is counted first, then y, then x.
pub fn next_cell(s: Coord, u: Coord) -> Coord
    requires { ShortSides (as_sides s) × InBox (as_sides s) (as_cell u) }
    ensures { as_cell result ≡ cell_at (as_sides s) (place_of (as_sides s) (as_cell u) + 1) }
{
    if u.2 + 1 < s.2 {
        return Coord(u.0, u.1, u.2 + 1);
    }
    if u.1 + 1 < s.1 {
        return Coord(u.0, u.1 + 1, 0);
    }
    Coord(u.0 + 1, 0, 0)
}

// The place in the mapped box of the cell at place i of a box with the sides s.
pub fn image_index(s: Coord, m: Map, i: usize) -> usize
    requires { ShortSides (as_sides s) × (i < volume (as_sides s)) }
    ensures { (result ≡ image_place (map_of m.0) (as_sides s) i) × (result < volume (as_sides s)) }
{
    let u = cell_at(s, i);
    place(m.sides(s), m.cell(s, u))
}

// The place in a box with the sides s of the cell that the map takes to place j of the mapped box.
pub fn source_index(s: Coord, m: Map, j: usize) -> usize
    requires { ShortSides (as_sides s) × (j < volume (as_sides s)) }
    ensures { (result ≡ source_place (map_of m.0) (as_sides s) j) × (result < volume (as_sides s)) }
{
    image_index(m.sides(s), m.inverse(), j)
}
