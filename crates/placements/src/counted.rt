// Trays that are counted.
ghost use Rattle.placements.specs.Merging.{Smallest};
ghost use Rattle.std.specs.Prelude.{◌≡◌, ◌≤◌};
ghost use Rattle.placements.specs.Counting.{Counted, numbers_of};

use super::counting::Counts;
use super::merging::TurnedPieces;
use super::trays::LentTray;
use shape::maps::Map;

// The variants of a kind, at most 24: how many they are, and their map numbers (what lies behind these says nothing). Of fixed length, with a count beside
// it, since nothing is put on a heap. (Bytes, not `Map`s, as in `small`: the definitions and laws speak of lists of numbers.)
#[derive(Clone, Copy)]
pub struct Turnings {
    pub count: usize,
    pub numbers: [u8; 24],
}

// No variants.
pub(crate) const NO_TURNINGS: Turnings = Turnings {
    count: 0,
    numbers: [0; 24],
};

impl Turnings {
    // The map numbers.
    fn as_slice(&self) -> &[u8]
        requires { self.now.count ≤ 24 }
        ensures { result.now ≡ numbers_of self.now }
    {
        &self.numbers[..self.count]
    }
}

// What counting leaves of a tray: the counts; the places of the board's filled cells, each piece's smallest map, one piece of each kind, and the variants of
// each kind. What else stands in the four arrays says nothing. They are of fixed length, with counts beside them, since nothing is put on a heap.
#[derive(Clone, Copy)]
pub struct CountedTray<'a> {
    pub tray: LentTray<'a>,
    pub counts: Counts,
    pub places: [u16; 512],
    pub small: [u8; 16],
    pub first: [u8; 16],
    pub turnings: [Turnings; 16],
    pub ghost counted: { Counted tray.pieces tray.board tray.bytes.now places first turnings counts },
    pub ghost smallest: { Smallest tray.pieces tray.bytes.now small },
}

impl<'a> CountedTray<'a> {
    ghost use Rattle.std.specs.Prelude.{◌≡◌, ◌≤◌, ◌<◌, length, take, get_or};
    ghost use Rattle.lists.specs.Lists.{before};
    ghost use Rattle.definitions.specs.Maps.{map_of};
    ghost use Rattle.definitions.specs.Kinds.{same_form, variants};
    ghost use Rattle.shape.specs.Variants.{turned_by};
    ghost use Rattle.placements.specs.Merging.{grid_at, moved_form, forms_of, copies_at};
    ghost use Rattle.placements.specs.Counting.{no_turnings, numbers_of};

    // The pieces with their smallest maps.
    fn turned(&self) -> TurnedPieces<'_>
        ensures { let t = self.now.tray in
            (result.pieces.now ≡ t.pieces) × (result.bytes.now ≡ t.bytes.now) × (result.small.now ≡ self.now.small) }
    {
        TurnedPieces {
            pieces: &self.tray.pieces,
            bytes: self.tray.bytes,
            small: &self.small,
        }
    }

    // The places of the board's filled cells, in scan order.
    pub fn places(&self) -> &[u16]
        ensures { result.now ≡ take self.now.counts.size self.now.places }
    {
        &self.places[..self.counts.size]
    }

    // One piece of each kind, in the order of kinds.
    pub fn kinds(&self) -> &[u8]
        ensures { result.now ≡ take self.now.counts.kinds self.now.first }
    {
        &self.first[..self.counts.kinds]
    }

    // The map numbers of the variants of kind k.
    pub fn turnings_of(&self, k: usize) -> &[u8]
        requires { k < self.now.counts.kinds }
        ensures { let c = self.now in
            let g = grid_at c.tray.pieces c.tray.bytes.now (get_or c.first k 0) in
            (result.now ≡ numbers_of (get_or c.turnings k no_turnings))
            × (length result.now ≤ 24) × (turned_by g result.now ≡ variants g) }
    {
        let turnings = &self.turnings;
        turnings[k].as_slice()
    }

    // The number of the kind whose smallest turned grid a map makes of piece i, in that piece's wood; where there is no such kind, the number of kinds. (No
    // Option: in the definitions and in the chart that number stands for no kind.)
    pub fn kind_of(&self, i: usize, m: Map) -> usize
        requires { i < self.now.tray.pieces.count }
        ensures { let c = self.now in
            let f = moved_form (map_of m.0) c.tray.pieces c.tray.bytes.now i in
            result ≡ before (same_form f) (forms_of c.tray.pieces c.tray.bytes.now (take c.counts.kinds c.first)) }
    {
        self.turned().kind_of(i, m, self.kinds())
    }

    // How many copies the kind of piece i has.
    pub fn copies_of(&self, i: usize) -> u64
        requires { i < self.now.tray.pieces.count }
        ensures { let t = self.now.tray in result ≡ copies_at t.pieces t.bytes.now i }
    {
        self.turned().copies_of(i)
    }
}
