// Trays without their empty outer layers: new records, whose grids stand in a slice of the caller's, the board's first, 512 bytes for each.
ghost use Rattle.std.specs.Prelude.{◌∷◌, map, ◌≡◌, ◌+◌, ◌≤◌, T, length};
ghost use Rattle.definitions.specs.Refusals.{sides_fit, cells_lie, piece_of};
ghost use Rattle.placements.specs.Stripping.{StripsRecord, StripsPieces, StripsTray, with_grids};
ghost use Rattle.placements.specs.Pieces.{records_of};
ghost use Rattle.placements.specs.Merging.{Sound};

use super::trays::LentTray;
use super::{Pieces, records};
use definitions::Record;
use shape::{Coord, stripping};

// How many bytes the grids of 16 pieces and a board need.
pub const ROOM: usize = 8704;

// A record over the stripped grid, and where that grid's corner lies in the lent box.
#[derive(Clone, Copy)]
struct StrippedRecord {
    row: Record,
    at: Coord,
}

// The records of a stripped tray, and where the corner of its board lies in the lent box.
#[derive(Clone, Copy)]
pub struct StrippedRecords {
    pub pieces: Pieces,
    pub board: Record,
    pub at: Coord,
}

// The grid of a record, stripped, into out from `start` on, where 512 bytes are free.
fn strip_record(bytes: &[u8], r: Record, out: &mut [u8], start: usize) -> StrippedRecord
    requires { T (sides_fit r) × T (cells_lie bytes.now r) × (start + 512 ≤ length out.old) }
    ensures { StripsRecord bytes.now r result out.old start out.new }
{
    let window = stripping::strip_grid(&records::grid_of(bytes, r), out, start);
    let s = window.sides;
    StrippedRecord {
        row: Record {
            a: s.0,
            b: s.1,
            c: s.2,
            start,
            ..r
        },
        at: window.at,
    }
}

// The grids of the pieces, stripped, behind the first 512 bytes of out.
fn strip_pieces(pieces: &Pieces, bytes: &[u8], out: &mut [u8]) -> Pieces
    requires { Sound pieces.now bytes.now × (8704 ≤ length out.old) }
    ensures { StripsPieces pieces.now bytes.now result out.old out.new }
{
    let mut made = *pieces;
    // the pieces before i are stripped, each behind those before it
    for i in 0..pieces.count {
        let p = pieces.records[i];
        let s = strip_record(bytes, p, out, 512 * i + 512);
        made.records[i] = s.row;
    }
    made
}

// The records of a tray, stripped; their grids into out, and around them it stays as it is.
pub fn strip_tray(tray: &LentTray, out: &mut [u8]) -> StrippedRecords
    requires { 8704 ≤ length out.old }
    ensures { let t = tray.now in
        let lent = map (piece_of t.bytes.now) (t.board ∷ records_of t.pieces) in
        StripsTray t.pieces t.board t.bytes.now result out.new × (out.new ≡ with_grids out.old 0 lent) }
{
    let board = strip_record(tray.bytes, tray.board, out, 0);
    let pieces = strip_pieces(&tray.pieces, tray.bytes, out);
    StrippedRecords {
        pieces,
        board: board.row,
        at: board.at,
    }
}
