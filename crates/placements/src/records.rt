// Records, their sides and their cells; and pieces, records by value.
// That sides fit and that cells lie in the bytes stay clauses: the stages find them out of plain records one after the other, and each row of the table lets
// the next one be asked.
ghost use Rattle.std.specs.Prelude.{◌≡◌, ◌≤◌, ◌<◌, T, get_or};
ghost use Rattle.definitions.specs.Refusals.{sides_of, grid_of, is_side, sides_fit, cells_lie};
ghost use Rattle.definitions.specs.Grid.{volume};
ghost use Rattle.shape.specs.Coords.{as_sides};
ghost use Rattle.shape.specs.CubicGrids.{grid_of as cubic};
ghost use Rattle.placements.specs.Pieces.{empty_pieces, no_record, put_record, records_of};

use crate::Pieces;
use definitions::Record;
use shape::{Coord, CubicGrid, cells};

// The sides of a record's box. (Not `From`, which could stand in `shape` alone: a shape knows nothing of records.)
#[tactic(auto, unfolding(definitions::specs::Refusals::sides_of))]
pub fn sides_of(r: Record) -> Coord
    ensures { as_sides result ≡ sides_of r }
{
    Coord(r.a, r.b, r.c)
}

// Whether a number is 1 to 8.
#[tactic(auto, unfolding(definitions::specs::Refusals::is_side))]
fn is_side(n: usize) -> bool
    ensures { result ≡ is_side n }
{
    (1..=8).contains(&n)
}

// Whether each side is 1 to 8.
#[tactic(auto, unfolding(definitions::specs::Refusals::sides_fit))]
pub fn sides_fit(r: Record) -> bool
    ensures { result ≡ sides_fit r }
{
    is_side(r.a) && is_side(r.b) && is_side(r.c)
}

// How many cells a record's grid has.
pub fn volume_of(r: Record) -> usize
    requires { T (sides_fit r) }
    ensures { (result ≡ volume (sides_of r)) × (result ≤ 512) }
{
    cells::volume_of(sides_of(r))
}

// Whether the cells lie in the lent bytes.
pub(crate) fn cells_lie(bytes: &[u8], r: Record) -> bool
    requires { T (sides_fit r) }
    ensures { result ≡ cells_lie bytes.now r }
{
    r.start <= bytes.len() && volume_of(r) <= bytes.len() - r.start
}

// A record's grid, whose cells lie in the bytes.
pub fn grid_of<'a>(bytes: &'a [u8], r: Record) -> CubicGrid<'a>
    requires { T (sides_fit r) × T (cells_lie bytes.now r) }
    ensures { cubic result ≡ grid_of bytes.entry.now r }
{
    let end = r.start + volume_of(r);
    let cells = &bytes[r.start..end];
    CubicGrid {
        cells,
        sides: sides_of(r),
    }
}

// The record of zeros.
pub const NO_RECORD: Record = Record {
    a: 0,
    b: 0,
    c: 0,
    count: 0,
    wood: 0,
    start: 0,
};

impl Pieces {
    // So many records of zeros.
    pub fn empty(count: usize) -> Pieces
        ensures { result ≡ empty_pieces count }
    {
        Pieces {
            records: [NO_RECORD; 16],
            count,
        }
    }

    // The record of piece n.
    pub fn get(&self, n: usize) -> Record
        requires { n < 16 }
        ensures { result ≡ get_or self.now.records n no_record }
    {
        self.records[n]
    }

    // Another record at place i; past 16 there is no place, and they stay as they are.
    pub fn put(&mut self, i: usize, p: Record)
        ensures { self.new ≡ put_record self.old i p }
    {
        if i < 16 {
            self.records[i] = p;
        }
    }

    // The records of at most 16 pieces.
    pub fn as_slice(&self) -> &[Record]
        requires { self.now.count ≤ 16 }
        ensures { result.now ≡ records_of self.now }
    {
        &self.records[..self.count]
    }
}
