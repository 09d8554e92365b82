// What the maps that bring the board onto itself make of cells and rows. A row's image is worked out when needed.
ghost use Rattle.std.specs.Prelude.{◌≡◌, ◌∷◌, map, ℕ, ◌+◌, ◌-◌, ◌*◌, ◌≤◌, ◌<◌, T, ltb, length, get_or};
ghost use Rattle.std.proofs.Math.Seq.{paste};
ghost use Rattle.lists.specs.Lists.{all, ascending, below, keep, from, member};
ghost use Rattle.definitions.specs.Maps.{map_of};
ghost use Rattle.definitions.specs.Packing.{ahead};
ghost use Rattle.definitions.specs.Kept.{symmetries};
ghost use Rattle.masks.specs.Masks.{has, hit};
ghost use Rattle.rows.specs.Charts.{images_of, kind_partner};
ghost use Rattle.rows.specs.Rows.{cells_of, row_at, rows_in};
ghost use Rattle.rows.specs.Boards.{Pictured, board_images, place_images};
ghost use Rattle.rows.specs.NumberedBoards.{board_of, order_of, sides_of};
ghost use Rattle.rows.specs.Ranges.{FirstCells, Ranged};
ghost use Rattle.rows.specs.Systems.{kind_by, moved_by, row_with};
ghost use Rattle.rows.specs.Lawful.{Permutes};

use super::board::NumberedBoard;
use super::chart::Chart;
use super::{Dims, row};
use masks::Mask;
use shape::maps::Map;
use shape::{cells, grids};

// Where a map takes each cell of the board, by scan numbers, from a place of the slice on. (The slice whole and a place in it, here and below: the promise is
// one equation over the whole slice.)
fn cell_images(board: &NumberedBoard, m: Map, images: &mut [u8], start: usize)
    requires { start + length board.now.planned.places.now ≤ length images.old }
    ensures { let places = board.now.planned.places.now in
        let to = place_images (sides_of board.now) (map_of m.0) places board.now.scans (length places) in
        images.new ≡ paste images.old start to (length places) }
{
    // the images of the cells before i are written
    for (i, &place) in board.planned.places.iter().enumerate() {
        let j = cells::image_index(board.planned.grid.sides, m, place as usize);
        images[start + i] = board.scans[j];
    }
}

// The images of the cells under each of the maps numbered from `start` to below `end` that brings the board onto itself, behind those of n maps; and how
// many maps there are then.
pub(crate) fn board_images(
    board: &NumberedBoard,
    start: u8,
    end: u8,
    images: &mut [u8],
    n: usize,
) -> usize
    requires { (start ≤ end) × (end ≤ 48) × (128 * (n + (end - start)) ≤ length images.old) }
    ensures { let g = board_of board.now in
        let maps = symmetries g (map map_of (from start (end - start))) in
        let size = length board.now.planned.places.now in
        Pictured images.old n images.new result size (map (board_images (order_of board.now) g) maps) }
{
    let grid = board.planned.grid;
    let mut r = n;
    // the images under the maps before m stand there
    for m in start..end {
        if grids::keeps(grid.cells, grid.sides, Map(m)) {
            cell_images(board, Map(m), images, 128 * r);
            r += 1;
        }
    }
    r
}

// The cells on which a map puts those of a word of a mask, as far as they are below `size`; where it puts them stands from number `start` of the images on.
fn moved_word(word: u64, chart: &Chart, start: usize, size: usize) -> Mask
    requires { (size ≤ 64) × (start + size ≤ 6144) × ((i : ℕ) → i < size → get_or chart.now.images (start + i) 0 < 128) }
    ensures { has result ≡ (λ n. member n (map (λ i. get_or chart.now.images (start + i) 0) (keep (hit word) (below size)))) }
{
    let mut moved = Mask::empty();
    let mut rest = word;
    let mut i = 0;
    // the images of the bits before number i are taken up, and `rest` is the word from there on
    while rest != 0 {
        let zeros = u64::trailing_zeros(rest) as usize;
        i += zeros;
        if size <= i {
            return moved;
        }
        moved = moved.with_cell(chart.image_at(start + i));
        rest = rest >> zeros >> 1;
        i += 1;
    }
    moved
}

// The cells on which a map puts those of a mask.
fn moved_mask(mask: Mask, chart: &Chart, m: usize, size: usize) -> Mask
    requires { (size ≤ 128) × (m < 48) × T (all (λ n. ltb n 128) (images_of chart.now size m)) }
    ensures { has result ≡ (λ n. member n (map (λ i. get_or (images_of chart.now size m) i 0) (keep (has mask) (below size)))) }
{
    if size <= 64 {
        return moved_word(mask.low, chart, 128 * m, size);
    }
    let low = moved_word(mask.low, chart, 128 * m, 64);
    let high = moved_word(mask.high, chart, 128 * m + 64, size - 64);
    low.union(high)
}

// The row of a kind with the cells of a mask; the number of rows where there is none. (No Option: the number is compared with row numbers, and what has no
// image stands behind every row.)
fn find_row(work: &[u64], rows: usize, chart: &Chart, kind: usize, mask: Mask) -> usize
    requires { (8 * rows ≤ length work.now) × (rows ≤ 1024) × Ranged work.now chart.now.starts rows
        × FirstCells (rows_in work.now rows) × T (ascending ahead (rows_in work.now rows)) }
    ensures { result ≡ row_with (rows_in work.now rows) (kind ∷ cells_of mask) }
{
    let c = mask.next_cell(0);
    if c == 128 {
        return rows;
    }
    if 16 <= kind {
        return rows;
    }
    let start = chart.start_at(128 * kind + c);
    let end = chart.start_at(128 * kind + c + 1);
    // no row before r has the kind and the cells
    for r in start..end {
        if row::mask_at(work, r) == mask {
            return r;
        }
    }
    rows
}

// The kind after a map.
#[tactic(auto, using(crate::proofs::MovedLaws::kind_odd, crate::proofs::MovedLaws::kind_even))]
pub fn kind_after(chart: &Chart, n: usize, odd: bool, kind: usize) -> usize
    requires { (n ≤ 16) × (kind < n) }
    ensures { result ≡ kind_by (map (kind_partner chart.now.kinds) (below n)) odd kind }
{
    if odd { chart.partner_of(kind) } else { kind }
}

// The image of row r under a map: its number, and the number of rows where it has none. (No Option, as for `find_row`.)
pub fn image_row(d: Dims, work: &[u64], chart: &Chart, m: usize, odd: bool, r: usize) -> usize
    requires rows_in_bounds { (8 * d.rows ≤ length work.now) × (d.rows ≤ 1024) × Ranged work.now chart.now.starts d.rows
        × FirstCells (rows_in work.now d.rows) × T (ascending ahead (rows_in work.now d.rows)) }
    requires r_lt_rows { (r < d.rows) × (d.kinds ≤ 16) × ((row_at work.now r).kind < d.kinds)
        × T (all (λ n. ltb n d.size) (row_at work.now r).cells) }
    requires size_bound { (d.size ≤ 128) × (m < 48) × Permutes d.size (images_of chart.now d.size m) }
    ensures { let partners = map (kind_partner chart.now.kinds) (below d.kinds) in
        let moved = moved_by partners odd (images_of chart.now d.size m) (row_at work.now r) in
        result ≡ row_with (rows_in work.now d.rows) moved }
{
    let kind = kind_after(chart, d.kinds, odd, row::kind_at(work, r));
    let mask = moved_mask(row::mask_at(work, r), chart, m, d.size);
    find_row(work, d.rows, chart, kind, mask)
}
