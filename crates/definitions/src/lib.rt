// The types that a call takes and hands back. Document 01 is written as definitions in specs/, and these types meet them there; proofs/ has only tables
// that are computed of them. What follows from the definitions is the crate theorems.
#![tactic(auto)]

ghost use Rattle.std.specs.Prelude.{◌≡◌};
ghost use Rattle.definitions.specs.Outcomes.{number_of};

// A piece as it is lent, or the board ("record" of document 01): three sides, a count, a wood, and the place where its
// cells begin in the lent bytes. A board's count and wood are not read. Sides have the width of an index, so that one of 257
// is refused and not taken for 1. The wood lies behind the count, in bytes that were padding: size and other places stay.
#[repr(C)]
#[derive(Clone, Copy, PartialEq, Eq)]
pub struct Record {
    pub a: usize,
    pub b: usize,
    pub c: usize,
    pub count: u32,
    pub wood: u8,
    pub start: usize,
}

#[derive(Clone, Copy, PartialEq, Eq)]
pub enum SolverKind {
    Auto,
    Naive,
    Fast,
    KnuthAlgorithm,
}

#[derive(Clone, Copy, PartialEq, Eq)]
pub struct Config {
    pub identify_transformed_answers: bool,
    pub identify_mirrored_answers: bool,
    pub solver: SolverKind,
}

// Why a call is refused: the rows 2 to 15 of document 01's table, in its order and with its numbers; and what document 02 adds for the call that writes the
// text for DLX1, 17: a kind has more than one copy, or the board no filled cell, which DLX1 can't be told; 18: the output is too short for the whole text;
// and for the catalogue, 21: the number of cells is not 1 to 6.
#[derive(Clone, Copy, PartialEq, Eq)]
pub enum Refusal {
    TooManyPieces = 2,
    SideOutOfRange,
    CellsOutsideBytes,
    CellNotZeroOrOne,
    PieceWithoutFilledCell,
    TooManyCopies = 8,
    TooManyBoardCells,
    MirroredWithoutTurned,
    EngineNotPorted,
    WorkTooShort,
    LinksTooShort,
    TooManyPlacements,
    TooManyLinks,
    NoText = 17,
    OutputTooShort,
    CellCountOutOfRange = 21,
}

// Where a page starts: at an entry of the list, by its number, or behind the entry that is lent.
#[derive(Clone, Copy, PartialEq, Eq)]
pub enum Start {
    Entry(u64),
    Behind,
}

// What an accepted call wrote: how many answers, or entries of the catalogue, and whether a further one follows.
#[derive(Clone, Copy, PartialEq, Eq)]
pub struct Page {
    pub written: usize,
    pub further: bool,
}

// What a call hands back beside the slices: its page; or the refusal; or, of a call for what lies behind an entry, `Ok(None)`, that no entry of the list equals
// the one that was lent (no refusal: the search has run and found none, and nothing is written).
pub type Listing = Result<Option<Page>, Refusal>;

impl Refusal {
    // The number that documents 01 and 02 give a refusal.
    pub fn number(self) -> u8
        ensures { result ≡ number_of self }
    {
        self as u8
    }
}
