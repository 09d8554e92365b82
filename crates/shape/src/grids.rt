// Any cells and sides, of which it is asked whether they make a grid. Where they do not, the answers are 0 or false. (No Option: a byte that is not
// there is one of no filled cell, which 0 says, and false says as well that no map brings them onto themselves.)
ghost use Rattle.std.specs.Prelude.{cond, ◌&&◌, ◌≡◌, ◌≤◌, ◌↔◌, IsTrue, length, get_or, eqb, leb};
ghost use Rattle.lists.specs.Lists.{all, how_many};
ghost use Rattle.definitions.specs.Grid.{byte_at, same_grid};
ghost use Rattle.definitions.specs.Maps.{map_of, map_sides, map_grid};
ghost use Rattle.shape.specs.Coords.{as_sides, as_cell, lies_in};
ghost use Rattle.shape.specs.Grids.{as_grid, Whole, is_whole, cell_seen};

use super::maps::Map;
use super::{Coord, CubicGrid, cells};

// Whether no side is above 8 and there is a byte for each cell: what a grid that is lent needs.
pub fn is_whole(cells: &[u8], s: Coord) -> bool
    ensures { IsTrue result ↔ Whole s cells.now }
{
    cells::are_short(s) && cells.len() == cells::volume_of_short(s)
}

// The byte of a cell; 0 where the grid is not whole, or the cell lies outside its box.
pub fn get(cells: &[u8], s: Coord, u: Coord) -> u8
    ensures { result ≡ cell_seen (as_grid s cells.now) (as_cell u) }
{
    match CubicGrid::new(cells, s) {
        Some(grid) if cells::in_box(s, u) => grid.get(u),
        _ => 0,
    }
}

// The byte at place j of the turned (or mirrored) grid: 0 where the grid is not whole, or has no such place.
pub fn turned_byte(cells: &[u8], s: Coord, m: Map, j: usize) -> u8
    ensures { let g = as_grid s cells.now in
        result ≡ cond (is_whole g) (get_or (map_grid (map_of m.0) g).cells j 0) 0 }
{
    match CubicGrid::new(cells, s) {
        Some(grid) if j < cells.len() => grid.turned_byte(m, j),
        _ => 0,
    }
}

// The byte of a cell of the turned (or mirrored) grid; 0 where the grid is not whole, or the cell lies outside the turned box.
pub fn turned_get(cells: &[u8], s: Coord, m: Map, u: Coord) -> u8
    ensures { let g = as_grid s cells.now in
        result ≡ cond (is_whole g && lies_in (map_sides (map_of m.0) (as_sides s)) (as_cell u)) (byte_at (map_grid (map_of m.0) g) (as_cell u)) 0 }
{
    match CubicGrid::new(cells, s) {
        Some(grid) => grid.turned_get(m, u),
        None => 0,
    }
}

// Whether a map brings a grid onto itself (`compute_symmetry`); not where the grid is not whole.
pub fn keeps(cells: &[u8], s: Coord, m: Map) -> bool
    ensures { let g = as_grid s cells.now in
        result ≡ is_whole g && same_grid (map_grid (map_of m.0) g) g }
{
    match CubicGrid::new(cells, s) {
        Some(grid) => grid.compare_turned(m, &grid, Map(0)).is_eq(),
        None => false,
    }
}

// How many cells are filled.
pub fn count_filled(cells: &[u8]) -> usize
    ensures { (result ≡ how_many (eqb 1) cells.now) × (result ≤ length cells.now) }
{
    cells.iter().filter(|&&cell| cell == 1).count()
}

// Whether each cell is 0 or 1.
pub fn are_bits(cells: &[u8]) -> bool
    ensures { result ≡ all (λ n. leb n 1) cells.now }
{
    cells.iter().all(|&cell| cell <= 1)
}
