// What a file of `pack` asks for: the pieces' records and their cells, the board's, and a configuration.
ghost use Rattle.std.specs.Prelude.{◌≡◌, ◌≤◌, ◌<◌, true, length};
ghost use Rattle.files.specs.Lines.{all_pieces};
ghost use Rattle.files.specs.Reading.{FileRead, PiecesRead, push_record};

use super::lines;
use definitions::{Config, Record};
use placements::Pieces;

// The pieces of a file: the first 16 records, how many pieces there are, and how many cells they have together.
#[derive(Clone, Copy)]
struct FilePieces {
    pieces: Pieces,
    used: usize,
}

// What a text asks for: its pieces, its board, its configuration, and how many cells they have together.
#[derive(Clone, Copy)]
pub struct Asked {
    pub pieces: Pieces,
    pub board: Record,
    pub config: Config,
    pub used: usize,
}

// One record more, behind those of the pieces; past 16 it is only counted.
// (Tried by `Pieces::put`: its promise has no test of the count, which the definition `push_record` has, so the proof needs a lemma on records past the 16
// where now it needs none.)
fn push_record(pieces: &mut Pieces, piece: Record)
    requires { pieces.old.count < 16384 }
    ensures { pieces.new ≡ push_record pieces.old piece }
{
    if pieces.count < 16 {
        pieces.records[pieces.count] = piece;
    }
    pieces.count += 1;
}

// The pieces that the lines of a text give, their cells from the start of a slice on. (The lines are walked twice, by `are_pieces` before this: the cells
// stay as they are where one line is no piece, so all are tested before any is put.)
fn read_pieces(text: &[u8], cells: &mut [u8]) -> FilePieces
    requires { (length text.now ≤ 16384) × (16384 ≤ length cells.old) × (all_pieces text.now ≡ true) }
    ensures { PiecesRead text.now cells.old result.pieces result.used cells.new × (result.used ≤ length text.now) }
{
    let mut pieces = Pieces::empty(0);
    let mut used = 0;
    let mut rest = text;
    // the pieces of the lines before `rest` are there, and their cells stand before `used`
    while let Some((line, next)) = lines::split_line(rest) {
        let piece = lines::piece_of(line).unwrap();
        let entry = piece.grid.record(piece.count, piece.wood, used);
        push_record(&mut pieces, entry);
        used = piece.grid.put_cells(cells, used);
        rest = next;
    }
    FilePieces { pieces, used }
}

// What a text asks for, whatever it is: it is read where it is a file of `pack` and 16,384 cells at least are lent; else the cells
// stay as they are. The pieces' cells are lent first, then the board's.
pub fn read_file(text: &[u8], cells: &mut [u8]) -> Option<Asked>
    ensures { FileRead text.now cells.old result cells.new }
{
    let head = lines::head_within(text, cells.len())?;
    if !lines::are_pieces(head.pieces) {
        return None;
    }
    let FilePieces { pieces, used } = read_pieces(head.pieces, cells);
    Some(Asked {
        pieces,
        board: head.board.record(0, 0, used),
        config: head.config,
        used: head.board.put_cells(cells, used),
    })
}
