// The table of refusals, rows 2 to 13.
ghost use Rattle.std.specs.Prelude.{◌≡◌, ◌∷◌, map, ◌≤◌, T, length};
ghost use Rattle.lists.specs.Lists.{all, sum};
ghost use Rattle.definitions.specs.Refusals.{grid_of, sides_fit, cells_lie, are_bits, some_filled, first_that_applies};
ghost use Rattle.placements.specs.Pieces.{records_of};
ghost use Rattle.placements.specs.Stages.{verdict_number, grid_rows, lent_rows, config_rows, slice_rows};

use super::{Pieces, records};
use definitions::{Config, Record, Refusal, SolverKind};
use shape::grids;

// 3
fn all_sides_fit(pieces: &[Record]) -> bool
    ensures { result ≡ all sides_fit pieces.now }
{
    pieces.iter().all(|&p| records::sides_fit(p))
}

// 4
fn all_cells_lie(pieces: &[Record], bytes: &[u8]) -> bool
    requires { T (all sides_fit pieces.now) }
    ensures { result ≡ all (cells_lie bytes.now) pieces.now }
{
    pieces.iter().all(|&p| records::cells_lie(bytes, p))
}

// 5
fn all_bits(pieces: &[Record], bytes: &[u8]) -> bool
    requires { T (all sides_fit pieces.now) × T (all (cells_lie bytes.now) pieces.now) }
    ensures { result ≡ all (λ q. are_bits (grid_of bytes.now q)) pieces.now }
{
    pieces
        .iter()
        .all(|&p| grids::are_bits(records::grid_of(bytes, p).cells))
}

// 6
fn all_filled(pieces: &[Record], bytes: &[u8]) -> bool
    requires { T (all sides_fit pieces.now) × T (all (cells_lie bytes.now) pieces.now) }
    ensures { result ≡ all (λ q. some_filled (grid_of bytes.now q)) pieces.now }
{
    pieces.iter().all(|&p| grids::count_filled(records::grid_of(bytes, p).cells) != 0)
}

// 8: a sum of 16 numbers of 32 bits.
fn copies_lent(pieces: &[Record]) -> u64
    requires { length pieces.now ≤ 16 }
    ensures { result ≡ sum (map (λ q. q.count) pieces.now) }
{
    pieces.iter().map(|p| p.count as u64).sum()
}

// Rows 2 to 9: what is lent.
#[tactic(auto, using(crate::proofs::RefusalLaws::records_within, crate::proofs::RefusalLaws::records_over), unfolding(crate::specs::Stages::lent_rows))]
pub fn check_lent(t: &Pieces, board: Record, bytes: &[u8]) -> Result<(), Refusal>
    ensures { verdict_number result ≡ first_that_applies (lent_rows (records_of t.now) board bytes.now) }
{
    if 16 < t.count {
        return Err(Refusal::TooManyPieces);
    }
    let pieces = t.as_slice();
    if !records::sides_fit(board) || !all_sides_fit(pieces) {
        return Err(Refusal::SideOutOfRange);
    }
    if !records::cells_lie(bytes, board) || !all_cells_lie(pieces, bytes) {
        return Err(Refusal::CellsOutsideBytes);
    }
    check_grids(pieces, board, bytes)
}

// Rows 5 to 9, of grids that lie in the bytes.
fn check_grids(pieces: &[Record], board: Record, bytes: &[u8]) -> Result<(), Refusal>
    requires { (length pieces.now ≤ 16) × T (all sides_fit (board ∷ pieces.now)) × T (all (cells_lie bytes.now) (board ∷ pieces.now)) }
    ensures { verdict_number result ≡ first_that_applies (grid_rows pieces.now board bytes.now) }
{
    let grid = records::grid_of(bytes, board);
    if !grids::are_bits(grid.cells) || !all_bits(pieces, bytes) {
        return Err(Refusal::CellNotZeroOrOne);
    }
    if !all_filled(pieces, bytes) {
        return Err(Refusal::PieceWithoutFilledCell);
    }
    if 128 < copies_lent(pieces) {
        return Err(Refusal::TooManyCopies);
    }
    if 128 < grids::count_filled(grid.cells) {
        return Err(Refusal::TooManyBoardCells);
    }
    Ok(())
}

// Rows 10 and 11: the configuration.
#[tactic(auto, unfolding(crate::specs::Stages::config_rows, definitions::specs::Refusals::is_ported))]
pub fn check_config(config: Config) -> Result<(), Refusal>
    ensures { verdict_number result ≡ first_that_applies (config_rows config) }
{
    if config.identify_mirrored_answers && !config.identify_transformed_answers {
        return Err(Refusal::MirroredWithoutTurned);
    }
    match config.solver {
        SolverKind::Auto | SolverKind::Naive => Err(Refusal::EngineNotPorted),
        SolverKind::Fast | SolverKind::KnuthAlgorithm => Ok(()),
    }
}

// Rows 12 and 13: the slices, by their lengths.
#[tactic(auto, unfolding(crate::specs::Stages::slice_rows, definitions::specs::Refusals::is_knuth))]
pub fn check_slices(config: Config, work: usize, links: usize) -> Result<(), Refusal>
    ensures { verdict_number result ≡ first_that_applies (slice_rows config work links) }
{
    if work < 8192 {
        return Err(Refusal::WorkTooShort);
    }
    if config.solver == SolverKind::KnuthAlgorithm && links < 32768 {
        return Err(Refusal::LinksTooShort);
    }
    Ok(())
}
