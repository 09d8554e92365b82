// The walk: every box that an entry can need, in order, and of each every filling with so many cells, in order.
ghost use Rattle.std.specs.Prelude.{◌≡◌, ◌-◌, ◌/◌, ◌≤◌, length};
ghost use Rattle.definitions.specs.Emission.{emits};
ghost use Rattle.definitions.specs.Grid.{volume};
ghost use Rattle.definitions.specs.Catalogue.{beginning_with, catalogue, in_box_of, is_needed};
ghost use Rattle.shape.specs.Coords.{as_sides, ShortSides};
ghost use Rattle.polycubes.specs.Emission.{emitted_of, as_entries};
ghost use Rattle.polycubes.specs.Walk.{Filled, front_of};

use super::emission::Emission;
use super::{emission, pieces};
use shape::{Coord, CubicGrid, cells};

// The filling that stands in the entry: on the page, if it is one.
fn emit_filling(sides: Coord, entry: &[u8; 21], entries: &mut [u8], e: Emission) -> Emission
    requires { ShortSides (as_sides sides) × Filled (as_sides sides) entry.now (volume (as_sides sides)) }
    ensures { let s = as_sides sides in
        let found = beginning_with s (front_of entry.now (volume s)) 0 0 in
        emitted_of result entries.new ≡ emits (length entries.old / 21) (as_entries found) (emitted_of e entries.old) }
{
    let grid = CubicGrid {
        cells: &entry[3..3 + cells::volume_of(sides)],
        sides,
    };
    if !pieces::is_smallest_piece(&grid) {
        return e;
    }
    emission::emit(entry, entries, e)
}

// The fillings that begin with the first i cells as they stand in the entry, and fill k of those behind them: the next cell is left unfilled first, and
// then filled. The entry's cells from i on are 0, before and afterwards.
fn walk(
    sides: Coord,
    entry: &mut [u8; 21],
    i: usize,
    k: usize,
    entries: &mut [u8],
    e: Emission,
) -> Emission
    requires { ShortSides (as_sides sides) × Filled (as_sides sides) entry.old i }
    ensures page { let s = as_sides sides in
        let found = beginning_with s (front_of entry.old i) (volume s - i) k in
        emitted_of result entries.new ≡ emits (length entries.old / 21) (as_entries found) (emitted_of e entries.old) }
    ensures restored { entry.new ≡ entry.old }
{
    let left = cells::volume_of(sides) - i;
    // once a further entry is known the rest changes nothing
    if e.further || left < k {
        return e;
    }
    if left == 0 {
        return emit_filling(sides, entry, entries, e);
    }
    let unfilled = walk(sides, entry, i + 1, k, entries, e);
    if k == 0 {
        return unfilled;
    }
    entry[3 + i] = 1;
    let filled = walk(sides, entry, i + 1, k - 1, entries, unfilled);
    entry[3 + i] = 0;
    filled
}

// The entries in a box.
fn list_box(n: usize, sides: Coord, entries: &mut [u8], e: Emission) -> Emission
    requires { ShortSides (as_sides sides) × (volume (as_sides sides) ≤ 18) }
    ensures { let found = in_box_of n (as_sides sides) in
        emitted_of result entries.new ≡ emits (length entries.old / 21) (as_entries found) (emitted_of e entries.old) }
{
    let mut entry = [0u8; 21];
    entry[0] = sides.0 as u8;
    entry[1] = sides.1 as u8;
    entry[2] = sides.2 as u8;
    walk(sides, &mut entry, 0, n, entries, e)
}

// Whether a box is one that entries of n cells can need.
#[tactic(auto, unfolding(definitions::specs::Catalogue::is_needed))]
fn is_needed(n: usize, s: Coord) -> bool
    requires { (n ≤ 6) × ShortSides (as_sides s) }
    ensures { result ≡ is_needed n (as_sides s) }
{
    s.0 + s.1 + s.2 <= n + 2 && s.0 <= s.1 && s.1 <= s.2
}

// The entries of n cells.
pub(crate) fn list(n: usize, entries: &mut [u8], e: Emission) -> Emission
    requires { n ≤ 6 }
    ensures { emitted_of result entries.new ≡ emits (length entries.old / 21) (as_entries (catalogue n)) (emitted_of e entries.old) }
{
    let most = Coord(n, n, n);
    let mut s = e;
    // s is what the boxes before have left: their sides less one are the cells before place i
    for i in 0..cells::volume_of(most) {
        let u = cells::cell_at(most, i);
        let sides = Coord(u.0 + 1, u.1 + 1, u.2 + 1);
        if is_needed(n, sides) {
            s = list_box(n, sides, entries, s);
        }
    }
    s
}
