// The lines of a file: a configuration, a board, then pieces.
ghost use Rattle.std.specs.Prelude.{◌≡◌, ◌||◌, ◌&&◌, ◌≤◌, true, false, leb, cond, length, MatchOption};
ghost use Rattle.lists.specs.Lists.{same};
ghost use Rattle.definitions.specs.Texts.{text};
ghost use Rattle.definitions.specs.Files.{grid_in, has_piece_fields, is_board, is_config, is_file, is_grid_in, is_piece, piece_in, wood_in};
ghost use Rattle.definitions.specs.declared.SolverKind.TheVariants.{Fast, KnuthAlgorithm};
ghost use Rattle.files.specs.Lines.{FirstLine, HeadIs, NoLine, Read, all_pieces, config_in, has_head, of_piece, word_of, written};

use super::fields;
use super::grids::GridText;
use definitions::{Config, SolverKind};

// What a configuration has identified. (`Config` itself has two flags, as document 01 has them: one pair of them is refused.)
#[derive(Clone, Copy, PartialEq, Eq)]
pub enum Identified {
    Nothing,
    Turned,
    Mirrored,
}

// A piece as it is written: its count, its wood and its grid.
#[derive(Clone, Copy)]
pub struct PieceText<'a> {
    pub count: u32,
    pub wood: u8,
    pub grid: GridText<'a>,
}

// A file's first two lines, and what stands behind them.
#[derive(Clone, Copy)]
pub struct Head<'a> {
    pub config: Config,
    pub board: GridText<'a>,
    pub pieces: &'a [u8],
}

// The first line of a text, without its line feed, and what stands behind it; none where no line is ended.
pub fn split_line(text: &[u8]) -> Option<(&[u8], &[u8])>
    ensures { MatchOption result (NoLine text.now) (λ parts. FirstLine text.now parts.0.now parts.1.now) }
{
    let end = text.iter().position(|&byte| byte == b'\n')?;
    Some((&text[..end], &text[end + 1..]))
}

// The engine that a word names.
// (By `==`: tried as a `match` on byte strings, whose last arm was not proved for words of the right length.)
#[tactic(auto, using(crate::proofs::PartLaws::same_are))]
fn engine_of(word: &[u8]) -> Option<SolverKind>
    ensures { let knuth = same word.now (text "knuth") in
        Read result (same word.now (text "fast") || knuth) (λ engine. engine ≡ cond knuth KnuthAlgorithm Fast) }
{
    if word == b"fast".as_slice() {
        Some(SolverKind::Fast)
    } else if word == b"knuth".as_slice() {
        Some(SolverKind::KnuthAlgorithm)
    } else {
        None
    }
}

// What a word has identified.
// (By `==`, as in `engine_of`.)
#[tactic(auto, using(crate::proofs::PartLaws::same_are))]
fn identified_of(word: &[u8]) -> Option<Identified>
    ensures { Read result (same word.now (text "none") || (same word.now (text "turned") || same word.now (text "mirrored")))
        (λ identified. word.now ≡ word_of identified) }
{
    if word == b"none".as_slice() {
        Some(Identified::Nothing)
    } else if word == b"turned".as_slice() {
        Some(Identified::Turned)
    } else if word == b"mirrored".as_slice() {
        Some(Identified::Mirrored)
    } else {
        None
    }
}

// The configuration that a line gives: the word, an engine, and what is identified.
#[tactic(auto, using(crate::proofs::PartLaws::same_are), unfolding(definitions::specs::Files::is_config, crate::specs::Lines::config_in))]
fn config_of(line: &[u8]) -> Option<Config>
    ensures { Read result (is_config line.now) (λ config. config ≡ config_in line.now) }
{
    if fields::count_fields(line) != 3 || fields::field(line, 0) != b"config".as_slice() {
        return None;
    }
    let solver = engine_of(fields::field(line, 1))?;
    let identified = identified_of(fields::field(line, 2))?;
    Some(Config {
        identify_transformed_answers: identified != Identified::Nothing,
        identify_mirrored_answers: identified == Identified::Mirrored,
        solver,
    })
}

// The grid that stands from field n of a line on: three sides and as many cells.
#[tactic(auto, using(crate::proofs::FieldLaws::field_short), unfolding(definitions::specs::Files::is_grid_in, definitions::specs::Files::grid_in))]
fn grid_of(line: &[u8], n: usize) -> Option<GridText<'_>>
    requires { n ≤ 2 }
    ensures { Read result (is_grid_in n line.now)
        (λ grid. (written 0 0 grid ≡ grid_in 0 0 n line.now) × (length grid.cells.now ≤ length line.now)) }
{
    let a = fields::number_in(fields::field(line, n), 3)?;
    let b = fields::number_in(fields::field(line, n + 1), 3)?;
    let c = fields::number_in(fields::field(line, n + 2), 3)?;
    let cells = fields::field(line, n + 3);
    if !fields::are_cells(cells) || cells.len() != a * b * c {
        return None;
    }
    Some(GridText { a, b, c, cells })
}

// The board that a line gives: the word and a grid.
#[tactic(auto, using(crate::proofs::PartLaws::same_are), unfolding(definitions::specs::Files::is_board))]
fn board_of(line: &[u8]) -> Option<GridText<'_>>
    ensures { Read result (is_board line.now)
        (λ grid. (written 0 0 grid ≡ grid_in 0 0 1 line.now) × (length grid.cells.now ≤ length line.now)) }
{
    if fields::count_fields(line) != 5 || fields::field(line, 0) != b"board".as_slice() {
        return None;
    }
    grid_of(line, 1)
}

// The wood of a line with as many fields as a piece's: 0 where it has six, the last field where it has seven.
#[tactic(auto, using(crate::proofs::FieldLaws::wood_absent), unfolding(definitions::specs::Files::has_piece_fields, definitions::specs::Files::wood_in))]
fn wood_of(line: &[u8]) -> Option<u8>
    ensures { Read result (has_piece_fields line.now) (λ wood. wood ≡ wood_in line.now) }
{
    match fields::count_fields(line) {
        6 => Some(0),
        7 => {
            let wood = fields::number_in(fields::field(line, 6), 3)?;
            u8::try_from(wood).ok()
        }
        _ => None,
    }
}

// The piece that a line gives: the word, a count, a grid, and a wood or none.
#[tactic(auto, using(crate::proofs::PartLaws::same_are), unfolding(definitions::specs::Files::is_piece, definitions::specs::Files::piece_in))]
pub fn piece_of(line: &[u8]) -> Option<PieceText<'_>>
    ensures { Read result (is_piece line.now)
        (λ piece. (of_piece piece ≡ piece_in line.now) × (length piece.grid.cells.now ≤ length line.now)) }
{
    let wood = wood_of(line)?;
    if fields::field(line, 0) != b"piece".as_slice() {
        return None;
    }
    let count = fields::number_in(fields::field(line, 1), 9)? as u32;
    let grid = grid_of(line, 2)?;
    Some(PieceText { count, wood, grid })
}

// The first two lines of a text: the configuration and the board.
#[tactic(auto, unfolding(crate::specs::Lines::has_head))]
pub fn head_of(text: &[u8]) -> Option<Head<'_>>
    ensures { Read result (has_head text.now) (λ head. HeadIs text.now head) }
{
    let (first, rest) = split_line(text)?;
    let config = config_of(first)?;
    let (second, pieces) = split_line(rest)?;
    let board = board_of(second)?;
    Some(Head {
        config,
        board,
        pieces,
    })
}

// The first two lines of a text that is no longer than a file may be, where so many cells are lent as any file needs. The lengths are looked at first: a text
// that is too long is not walked.
pub fn head_within(text: &[u8], cells: usize) -> Option<Head<'_>>
    ensures { MatchOption result (leb 16384 cells && is_file text.now ≡ false)
        (λ head. (length text.now ≤ 16384) × (16384 ≤ cells) × (has_head text.now ≡ true) × HeadIs text.now head) }
{
    if text.len() > 16384 || cells < 16384 {
        return None;
    }
    head_of(text)
}

// Whether each line of a text is ended and is a piece.
pub fn are_pieces(text: &[u8]) -> bool
    ensures { result ≡ all_pieces text.now }
{
    let mut rest = text;
    // the lines before `rest` are pieces
    while let Some((line, next)) = split_line(rest) {
        if piece_of(line).is_none() {
            return false;
        }
        rest = next;
    }
    rest.is_empty()
}
