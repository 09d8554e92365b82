// The rows of a tray, written into a slice of words (a call's work slice, or memory in its place), by kind, then (p, j).
// (The slice and the number of rows in it stay two values: the page call for C lends its work slice whole, and the caller's proof would not learn from a
// struct that borrows it what the slice holds at the end.)
ghost use Rattle.std.specs.Prelude.{◌≡◌, [], ◌∷◌, map, ◌+◌, ◌*◌, ◌≤◌, ◌<◌, T, ltb, length, get_or};
ghost use Rattle.lists.specs.Lists.{all, joined, member, numbered};
ghost use Rattle.definitions.specs.Grid.{InBox, place_of};
ghost use Rattle.definitions.specs.Scan.{scan};
ghost use Rattle.definitions.specs.Placements.{compile, lies, placements_at, reaches};
ghost use Rattle.masks.specs.Masks.{has};
ghost use Rattle.shape.specs.Coords.{as_cell};
ghost use Rattle.shape.specs.CubicGrids.{grid_of};
ghost use Rattle.shape.specs.Variants.{turned_by};
ghost use Rattle.placements.specs.Poses.{Standing, cells_in, origin_in, variants_in};
ghost use Rattle.placements.specs.Trays.{board_grid, lent_tray};
ghost use Rattle.rows.specs.Rows.{Appended, cells_of, rows_in, spread};
ghost use Rattle.rows.specs.Boards.{lands};
ghost use Rattle.rows.specs.NumberedBoards.{board_of, order_of, sides_of};
ghost use Rattle.rows.specs.Ranges.{Ranged, start_of};

use super::board::NumberedBoard;
use super::row;
use masks::Mask;
use placements::counted::CountedTray;
use placements::fitting;
use placements::poses::{Pose, Poses};
use shape::{Coord, CubicGrid, cells};

// Row r, behind r rows.
fn write_row(work: &mut [u64], r: usize, mask: Mask, kind: usize, p: usize, j: usize)
    requires { 8 * r + 8 ≤ length work.old }
    ensures { Appended work.old r work.new (r + 1) (record { kind = kind; p = p; j = j; cells = cells_of mask } ∷ []) }
{
    let at = 8 * r;
    work[at] = mask.low;
    work[at + 1] = mask.high;
    work[at + 2] = kind as u64;
    work[at + 3] = p as u64;
    work[at + 4] = j as u64;
}

// The cells, by scan number, on which the filled cells of a variant lie when its origin lies at a cell of the board's box.
fn mask_of(board: &NumberedBoard, pose: &Pose, at: Coord) -> Mask
    requires cell { InBox (sides_of board.now) (as_cell at) × (pose.now.size ≤ 512) × T (reaches (as_cell at) (origin_in pose.now)) }
    requires landing { T (all (lands (sides_of board.now) board.now.scans (as_cell at) (origin_in pose.now)) (cells_in pose.now)) }
    ensures { let b = board.now in
        let o = origin_in pose.now in
        has result ≡ (λ n. member n (map (λ u. get_or b.scans (place_of (sides_of b) (lies (as_cell at) o u)) 0) (cells_in pose.now))) }
{
    let o = pose.origin();
    let mut mask = Mask::empty();
    // the mask has the cells on which those before k lie
    for k in 0..pose.size {
        let u = fitting::lies_at(at, o, pose.cell_at(k));
        let n = board.scans[cells::place(board.planned.grid.sides, u)];
        mask = mask.with_cell(n as usize);
    }
    mask
}

// The rows of a kind whose origins lie at the cell with the scan number p: a row for each of its variants that fits there.
fn rows_at(
    board: &NumberedBoard,
    poses: &Poses,
    kind: usize,
    p: usize,
    at: Coord,
    work: &mut [u64],
    r: usize,
) -> usize
    requires cell { InBox (sides_of board.now) (as_cell at) × Standing (order_of board.now) poses.now }
    requires room { let b = board.now in
        let cs = scan (order_of b) (board_of b) in
        let vs = variants_in (order_of b) poses.now in
        8 * (r + length (placements_at cs kind vs p (as_cell at))) ≤ length work.old }
    ensures { let b = board.now in
        let cs = scan (order_of b) (board_of b) in
        let vs = variants_in (order_of b) poses.now in
        Appended work.old r work.new result (map spread (placements_at cs kind vs p (as_cell at))) }
{
    let mut j = 0;
    // the rows written and the placements of the variants left make all
    for pose in poses.as_slice() {
        if fitting::fits_pose(&board.planned.grid, pose, at) {
            write_row(work, r + j, mask_of(board, pose, at), kind, p, j);
            j += 1;
        }
    }
    r + j
}

// The rows of a kind, given by a piece and the map numbers of its variants.
fn rows_by(
    board: &NumberedBoard,
    piece: &CubicGrid,
    turnings: &[u8],
    kind: usize,
    work: &mut [u64],
    r: usize,
) -> usize
    requires few { length turnings.now ≤ 24 }
    requires room { let b = board.now in
        let cs = scan (order_of b) (board_of b) in
        let vs = map (scan (order_of b)) (turned_by (grid_of piece.now) turnings.now) in
        8 * (r + length (joined (numbered cs (placements_at cs kind vs)))) ≤ length work.old }
    ensures { let b = board.now in
        let cs = scan (order_of b) (board_of b) in
        let vs = map (scan (order_of b)) (turned_by (grid_of piece.now) turnings.now) in
        Appended work.old r work.new result (map spread (joined (numbered cs (placements_at cs kind vs)))) }
{
    let mut poses = Poses::new();
    let order = board.planned.order;
    poses.pose_all(piece, turnings, order.first, order.second, order.third);
    let mut t = r;
    // the rows written and the placements at the cells from p on make all
    for (p, &place) in board.planned.places.iter().enumerate() {
        let at = cells::cell_at(board.planned.grid.sides, place as usize);
        t = rows_at(board, &poses, kind, p, at, work, t);
    }
    t
}

// The rows of a tray: its placements, by the kinds, variants and board cells that were counted; and how many they are.
pub(crate) fn build_rows(board: &NumberedBoard, counted: &CountedTray, work: &mut [u64]) -> usize
    requires same { board_of board.now ≡ board_grid counted.now.tray }
    requires room { 8 * counted.now.counts.placements ≤ length work.old }
    ensures { let c = compile (lent_tray counted.now.tray) in
        Appended work.old 0 work.new result (map spread c.placements) }
{
    let mut r = 0;
    // the rows written and the placements of the kinds from k on make all
    for (k, &first) in counted.kinds().iter().enumerate() {
        let piece = counted.tray.piece_grid(first as usize);
        r = rows_by(board, &piece, counted.turnings_of(k), k, work, r);
    }
    r
}

// Where the rows of the ranges from i on begin, those of kind k at cell c being range 128·k + c: the row is looked for from r on, which is no later; the
// number of rows where there is none. (No Option: ranges without rows begin and end there.)
fn start_from(work: &[u64], rows: usize, r: usize, i: usize) -> usize
    requires { (8 * rows ≤ length work.now) × (r ≤ start_of (rows_in work.now rows) i)
        × T (all (λ q. ltb (128 * q.kind + q.p) 2048) (rows_in work.now rows)) }
    ensures { result ≡ start_of (rows_in work.now rows) i }
{
    // the row is no earlier than s
    for s in r..rows {
        if i <= 128 * row::kind_at(work, s) + row::first_at(work, s) {
            return s;
        }
    }
    rows
}

// Where the rows of each range begin, those of kind k at cell c being range 128·k + c; and, behind the last range, the number of rows.
pub(crate) fn range_rows(work: &[u64], rows: usize, starts: &mut [u16; 2049])
    requires { (8 * rows ≤ length work.now) × (rows ≤ 1024)
        × T (all (λ q. ltb (128 * q.kind + q.p) 2048) (rows_in work.now rows)) }
    ensures { Ranged work.now starts.new rows }
{
    let mut r = 0;
    // the starts of the ranges before i stand there, and r is no later than that of range i
    for (i, start) in starts.iter_mut().enumerate() {
        r = start_from(work, rows, r, i);
        *start = r as u16;
    }
}
