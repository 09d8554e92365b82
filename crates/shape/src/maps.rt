// The 48 signed axis permutations, by number.
ghost use Rattle.std.specs.Prelude.{◌≡◌, ◌<◌};
ghost use Rattle.definitions.specs.Maps.{map_of, inverse, product, map_sides, map_cell, side, coordinate, from_end};
ghost use Rattle.shape.specs.Coords.{as_sides, as_cell, as_map, axis_number, flip_number};

use super::constants::{Axes, INVERSE_TABLE, MAP_TABLE, PRODUCT_TABLE};
use super::{Axis, Coord};

// What stands along the axis with a number: 0 is x, 1 is y, and any other z. (`Coord::pick` takes an axis by its name.)
#[tactic(auto, unfolding(definitions::specs::Maps::side, definitions::specs::Maps::coordinate))]
pub fn pick(axis: u8, s: Coord) -> usize
    ensures of_sides { result ≡ side (as_sides s) axis }
    ensures of_cell { result ≡ coordinate (as_cell s) axis }
{
    match axis {
        0 => s.0,
        1 => s.1,
        _ => s.2,
    }
}

// A map, by its number: below 24 a turn, from 24 to 47 a mirroring. A larger number stands for the map that moves nothing.
// (No `TryFrom`: `map_of` gives each number a map, and making one cannot fail.)
#[derive(Clone, Copy)]
pub struct Map(pub u8);

impl Map {
    // `Not` of the original.
    pub fn inverse(self) -> Map
        ensures { (result.0 < 48) × (map_of result.0 ≡ inverse (map_of self.0)) }
    {
        Map(INVERSE_TABLE[self.index()])
    }

    // `Mul` of the original: first other, then self.
    pub fn compose(self, other: Map) -> Map
        ensures { (result.0 < 48) × (map_of result.0 ≡ product (map_of self.0) (map_of other.0)) }
    {
        Map(PRODUCT_TABLE[48 * self.index() + other.index()])
    }

    // The number as an index into the constants.
    fn index(self) -> usize
        ensures { (result < 48) × (map_of result ≡ map_of self.0) }
    {
        let n = self.0;
        if n < 48 { usize::from(n) } else { 0 }
    }

    // The axes and flips of the map.
    pub(crate) fn axes_of(self) -> Axes
        ensures { as_map result ≡ map_of self.0 }
    {
        MAP_TABLE[self.index()]
    }

    // The sides of a box after the map.
    pub fn sides(self, s: Coord) -> Coord
        ensures { as_sides result ≡ map_sides (map_of self.0) (as_sides s) }
    {
        let e = self.axes_of();
        Coord(s.pick(e.x), s.pick(e.y), s.pick(e.z))
    }

    // Where the map takes a cell of a box with the sides s.
    pub fn cell(self, s: Coord, u: Coord) -> Coord
        ensures { as_cell result ≡ map_cell (map_of self.0) (as_sides s) (as_cell u) }
    {
        let e = self.axes_of();
        Coord(
            along(e.x, e.flip_x, s, u),
            along(e.y, e.flip_y, s, u),
            along(e.z, e.flip_z, s, u),
        )
    }
}

// A cell's coordinate along an axis, counted from the other end where the flip is set.
#[tactic(auto, unfolding(definitions::specs::Maps::from_end))]
fn along(axis: Axis, flip: bool, s: Coord, u: Coord) -> usize
    ensures { result ≡ from_end (flip_number flip) (side (as_sides s) (axis_number axis)) (coordinate (as_cell u) (axis_number axis)) }
{
    let i = u.pick(axis);
    if flip {
        s.pick(axis).saturating_sub(1).saturating_sub(i)
    } else {
        i
    }
}
