// What an answer shows on the cells of the board, and which rows can be in a packing with that answer.
ghost use Rattle.std.specs.Prelude.{option_copied, ◌≡◌, ◌+◌, ◌*◌, ◌≤◌, ◌<◌, eqb, get_or, length, take};
ghost use Rattle.lists.specs.Lists.{before};
ghost use Rattle.rows.specs.Rows.{row_at};
ghost use Rattle.rows.specs.Systems.{owned_in};
ghost use Rattle.rows.specs.Shown.{Shown, leads_by, shows_row};

use super::chart::Chart;
use super::{Dims, row};

// Byte i of a slice, 0 past its end.
fn byte_or(last: &[u8], i: usize) -> u8
    ensures { result ≡ get_or last.now i 0 }
{
    last.get(i).copied().unwrap_or(0)
}

// The place of a cell among the scan numbers of a box; the number of places where it has none. (No Option: `Shown` reads an answer at that place.)
fn place_of(scans: &[u8], cell: usize) -> usize
    ensures { (result ≡ before (eqb cell) scans.now) × (result ≤ length scans.now) }
{
    scans
        .iter()
        .position(|&scan| scan as usize == cell)
        .unwrap_or(scans.len())
}

// The two bytes that an answer has for each cell of the board.
pub fn show_cells(d: Dims, chart: &Chart, last: &[u8]) -> [u8; 256]
    requires { (d.size ≤ 128) × (d.places ≤ 512) }
    ensures { Shown d.size (take d.places chart.now.scans) last.now result }
{
    let mut shown = [0; 256];
    // the bytes of the cells before c are written
    for c in 0..d.size {
        let i = place_of(&chart.scans[..d.places], c);
        shown[2 * c] = byte_or(last, 2 * i);
        shown[2 * c + 1] = byte_or(last, 2 * i + 1);
    }
    shown
}

// Whether an answer shows one copy, of a piece of row r's kind, on all cells of row r.
fn is_shown(d: Dims, work: &[u64], chart: &Chart, shown: &[u8; 256], r: usize) -> bool
    requires { (8 * r + 8 ≤ length work.now) × ((row_at work.now r).p < 128) × (d.pieces ≤ 16) }
    ensures { result ≡ shows_row (owned_in chart.now.pieces d.pieces) shown.now (row_at work.now r) }
{
    let p = row::first_at(work, r);
    let piece = shown[2 * p];
    let copy = shown[2 * p + 1];
    let at = piece as usize;
    if d.pieces <= at {
        return false;
    }
    if chart.kind_of(at) != row::kind_at(work, r) {
        return false;
    }
    let mask = row::mask_at(work, r);
    let mut c = mask.next_cell(0);
    // the cells of the row before c show the copy
    while c < 128 {
        if shown[2 * c] != piece || shown[2 * c + 1] != copy {
            return false;
        }
        c = mask.next_cell(c + 1);
    }
    true
}

// Whether the packings with row r are to be looked at: all are where no answer is waited for, else those that may have it, by what it shows.
pub fn leads(d: Dims, work: &[u64], chart: &Chart, shown: Option<&[u8; 256]>, r: usize) -> bool
    requires { (8 * r + 8 ≤ length work.now) × ((row_at work.now r).p < 128) × (d.pieces ≤ 16) }
    ensures { result ≡ leads_by (owned_in chart.now.pieces d.pieces) (option_copied shown.entry) (row_at work.now r) }
{
    match shown {
        None => true,
        Some(shown) => is_shown(d, work, chart, shown, r),
    }
}
