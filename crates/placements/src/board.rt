// The board's filled cells: the scan number of each place of its box.
ghost use Rattle.std.specs.Prelude.{◌≡◌, map, ◌≤◌, T, eqb, ltb, length};
ghost use Rattle.lists.specs.Lists.{all, before, below};
ghost use Rattle.definitions.specs.Grid.{volume};
ghost use Rattle.definitions.specs.Stripping.{FitsIn};
ghost use Rattle.shape.specs.Coords.{as_sides, as_cell, ShortSides};
ghost use Rattle.placements.specs.Stripping.{lent_place};

use shape::{Coord, cells};

// For each place of a box how many of the listed places stand before it: its scan number, and their count where its cell is not among them. (No Option: so
// is a scan number defined.)
pub fn number_places(places: &[u16], scans: &mut [u8])
    requires { (length places.now ≤ 128) × T (all (λ i. ltb i (length scans.old)) places.now) }
    ensures { scans.new ≡ map (λ i. before (eqb i) places.now) (below (length scans.old)) }
{
    scans.fill(places.len() as u8);
    // the places from number k on have theirs; of two equal places the first wins
    for k in (0..places.len()).rev() {
        scans[places[k] as usize] = k as u8;
    }
}

// The places of a box become those of the same cells in the lent box, in which its corner lies at a cell.
#[tactic(auto, using(shape::proofs::PlaceLaws::volume_fits))]
pub fn put_back(places: &mut [u16], s: Coord, at: Coord, lent: Coord)
    requires { T (all (λ i. ltb i (volume (as_sides s))) places.old)
        × ShortSides (as_sides lent) × FitsIn (record { lent = as_sides lent; at = as_cell at }) (as_sides s) }
    ensures { let f = lent_place (as_sides s) (record { lent = as_sides lent; at = as_cell at }) in
        places.new ≡ map f places.old }
{
    // the places passed are put back
    for place in places.iter_mut() {
        let u = cells::cell_at(s, *place as usize);
        *place = cells::place(lent, at.set_down(u)) as u16;
    }
}
