// What counting works out of a tray before anything is written: its kinds, their variants, and how many placements and links it has.
ghost use Rattle.std.specs.Prelude.{◌≡◌, ◌*◌, ◌≤◌, length};
ghost use Rattle.definitions.specs.Refusals.{first_that_applies};
ghost use Rattle.shape.specs.Variants.{turned_by};
ghost use Rattle.shape.specs.CubicGrids.{grid_of};
ghost use Rattle.shape.specs.Scans.{as_order};
ghost use Rattle.placements.specs.Stages.{verdict_number, count_rows_by};
ghost use Rattle.placements.specs.Merging.{Smallest, AreKinds};
ghost use Rattle.placements.specs.Counting.{fits_in, placements_in, AreVariants, Counted};
ghost use Rattle.placements.specs.Trays.{board_grid};

use super::counted::{CountedTray, NO_TURNINGS, Turnings};
use super::merging::TurnedPieces;
use super::planned::PlannedBoard;
use super::poses::Poses;
use super::trays::LentTray;
use super::{fitting, merging};
use definitions::{Config, Refusal, SolverKind};
use shape::{CubicGrid, cells, grids, scan, variants};

// What counting works out of a tray and building goes on from: filled board cells, kinds, and placements and links as 14 and 15 count them.
#[derive(Clone, Copy, PartialEq, Eq)]
pub struct Counts {
    pub size: usize,
    pub kinds: usize,
    pub placements: usize,
    pub links: usize,
}

// How often the grids that map numbers make of a piece fit on a board.
fn count_cells(board: &PlannedBoard, piece: &CubicGrid, turnings: &[u8]) -> usize
    requires { length turnings.now ≤ 24 }
    ensures { let b = board.now in
        let grids = turned_by (grid_of piece.now) turnings.now in
        (result ≡ fits_in (as_order b.order) (grid_of b.grid) grids) × (result ≤ length turnings.now * length b.places.now) }
{
    let mut poses = Poses::new();
    let order = board.order;
    poses.pose_all(piece, turnings, order.first, order.second, order.third);
    let mut count = 0;
    // what is counted and what fits at the places left make all
    for &place in board.places {
        let at = cells::cell_at(board.grid.sides, place as usize);
        count += fitting::count_at(&board.grid, &poses, at);
    }
    count
}

// The variants of a piece; and how many placements it has on a board.
fn count_piece(board: &PlannedBoard, piece: &CubicGrid) -> (Turnings, usize)
    ensures { let b = board.now in
        let g = grid_of piece.now in
        AreVariants g result.0 × (result.1 ≡ placements_in (as_order b.order) (grid_of b.grid) g) × (result.1 ≤ 24 * length b.places.now) }
{
    let mut turned = [[0u8; 512]; 24];
    variants::turn_all(piece, &mut turned);
    let mut numbers = [0; 24];
    let count = variants::variants_of(piece, &turned, &mut numbers);
    let rows = count_cells(board, piece, &numbers[..count]);
    (Turnings { count, numbers }, rows)
}

// The same of a piece of each kind, and the counts of them all.
fn count_kinds(
    board: &PlannedBoard,
    tray: &LentTray,
    small: &[u8],
    kinds: &[u8],
    turnings: &mut [Turnings; 16],
) -> Counts
    requires board { let t = tray.now in grid_of board.now.grid ≡ board_grid t }
    requires smallest { let t = tray.now in Smallest t.pieces t.bytes.now small.now }
    requires kinds { let t = tray.now in AreKinds t.pieces t.bytes.now kinds.now (length kinds.now) }
    ensures counted { let t = tray.now in
        Counted t.pieces t.board t.bytes.now board.now.places.now kinds.now turnings.new result }
    ensures sizes { (result.size ≡ length board.now.places.now) × (result.kinds ≡ length kinds.now) }
{
    let pieces = TurnedPieces {
        pieces: &tray.pieces,
        bytes: tray.bytes,
        small,
    };
    let size = board.places.len();
    let mut placements = 0;
    let mut links = size + kinds.len();
    // the variants of the kinds before k stand there; what is counted and the counts of the kinds from k on make all
    for (k, &first) in kinds.iter().enumerate() {
        let i = first as usize;
        let piece = tray.piece_grid(i);
        let (variants, rows) = count_piece(board, &piece);
        turnings[k] = variants;
        placements += rows;
        if 0 < pieces.copies_of(i) {
            links += rows * (1 + grids::count_filled(piece.cells));
        }
    }
    Counts {
        size,
        kinds: kinds.len(),
        placements,
        links,
    }
}

// A tray with what is counted of it. (By itself: as a part of who calls it, what it works in, 40 KB, would stay on the stack while the rows are built.)
#[inline(never)]
pub fn count_tray<'a>(tray: LentTray<'a>) -> CountedTray<'a>
    ensures { result.tray ≡ tray.entry }
{
    let grid = tray.board_grid();
    let order = tray.order();
    let mut places = [0u16; 512];
    let size = scan::plan_coords(&grid, order, &mut places);
    let small = merging::smallest_maps(&tray.pieces, tray.bytes);
    let pieces = TurnedPieces {
        pieces: &tray.pieces,
        bytes: tray.bytes,
        small: &small,
    };
    let mut first = [0u8; 16];
    let kinds = pieces.merge(&mut first);
    let board = PlannedBoard {
        grid,
        order,
        places: &places[..size],
    };
    let mut turnings = [NO_TURNINGS; 16];
    let counts = count_kinds(&board, &tray, &small, &first[..kinds], &mut turnings);
    CountedTray {
        tray,
        counts,
        places,
        small,
        first,
        turnings,
    }
}

// Rows 14 and 15, by the counts.
#[tactic(auto, unfolding(crate::specs::Stages::count_rows_by, definitions::specs::Refusals::is_knuth))]
pub fn check_counts(counts: Counts, config: Config) -> Result<(), Refusal>
    ensures { verdict_number result ≡ first_that_applies (count_rows_by counts.placements counts.links config) }
{
    if 1024 < counts.placements {
        return Err(Refusal::TooManyPlacements);
    }
    if config.solver == SolverKind::KnuthAlgorithm && 4096 < counts.links {
        return Err(Refusal::TooManyLinks);
    }
    Ok(())
}
