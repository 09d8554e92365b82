// The lines of the text, each put at the start of a buffer. (A buffer for a line, and no place in the lent output: the text is measured by the same lines
// before a byte of the output is written.)
ghost use Rattle.std.specs.Prelude.{◌≡◌, ◌∷◌, map, ◌+◌, ◌*◌, ◌≤◌, ◌<◌, length};
ghost use Rattle.lists.specs.Lists.{below, keep};
ghost use Rattle.definitions.specs.Dlx1.{barred, cell_item, item_line, kind_item, option_line, parted, spaced, stocked};
ghost use Rattle.definitions.specs.Files.{decimal};
ghost use Rattle.masks.specs.Masks.{has};
ghost use Rattle.rows.specs.Charts.{kind_copies};
ghost use Rattle.rows.specs.RowSystems.{seen};
ghost use Rattle.rows.specs.Rows.{row_at};
ghost use Rattle.texts.specs.Put.{Put};

use masks::Mask;
use rows::chart::Chart;
use rows::row;
use rows::row_system::RowSystem;

// Long enough for any line: a kind and 512 cells of five bytes each take some 2,600 at most.
pub const LINE: usize = 4096;

// An item: its letter and its number.
fn put_item(line: &mut [u8], at: usize, letter: u8, n: usize) -> usize
    requires { (n < 1000) × (at + 21 ≤ length line.old) }
    ensures { Put line.old at (letter ∷ decimal n) line.new result × (result ≤ at + 4) }
{
    line[at] = letter;
    texts::put_decimal(line, at + 1, n as u64)
}

// An item behind others: a space, its letter and its number.
fn put_next(line: &mut [u8], at: usize, letter: u8, n: usize) -> usize
    requires { (n < 1000) × (at + 22 ≤ length line.old) }
    ensures { Put line.old at (32 ∷ letter ∷ decimal n) line.new result × (result ≤ at + 5) }
{
    line[at] = b' ';
    put_item(line, at + 1, letter, n)
}

// The items of so many cells.
fn put_board(line: &mut [u8], size: usize) -> usize
    requires { (1 ≤ size) × (size ≤ 128) × (4096 ≤ length line.old) }
    ensures { Put line.old 0 (spaced (map cell_item (below size))) line.new result × (result ≤ 5 * size) }
{
    let mut end = put_item(line, 0, b'b', 0);
    // the items of the cells before n are put
    for n in 1..size {
        end = put_next(line, end, b'b', n);
    }
    end
}

// The bar and the items of the kinds that have copies, behind other items; nothing where none has.
fn put_kinds(line: &mut [u8], at: usize, chart: &Chart, kinds: usize) -> usize
    requires { (kinds ≤ 16) × (at + 120 ≤ length line.old) }
    ensures { let copies = map (kind_copies chart.now.kinds) (below kinds) in
        Put line.old at (parted (barred (map kind_item (stocked copies)))) line.new result × (result ≤ at + 5 * kinds + 2) }
{
    let mut end = at;
    // the bar and the items of the kinds before k are put
    for k in 0..kinds {
        if 0 < chart.copies_of(k) {
            if end == at {
                line[at] = b' ';
                line[at + 1] = b'|';
                end = at + 2;
            }
            end = put_next(line, end, b'p', k);
        }
    }
    end
}

// The first line: the cells, and the kinds that have copies.
pub fn put_items(system: &RowSystem, line: &mut [u8]) -> usize
    requires { (1 ≤ system.now.d.size) × (4096 ≤ length line.old) }
    ensures { let s = seen system.now in
        Put line.old 0 (item_line s.size s.copies) line.new result × (result ≤ 4096) }
{
    let bar = put_board(line, system.d.size);
    let end = put_kinds(line, bar, system.chart, system.d.kinds);
    line[end] = b'\n';
    end + 1
}

// The items of a row's cells, in the order of the box: its places are walked, each with the scan number of the cell there.
fn put_cells(line: &mut [u8], at: usize, mask: Mask, scans: &[u8]) -> usize
    requires { at + 5 * length scans.now + 22 ≤ length line.old }
    ensures { Put line.old at (parted (map cell_item (keep (has mask) scans.now))) line.new result
        × (result ≤ at + 5 * length scans.now) }
{
    let mut end = at;
    // the items of the cells at the places before this one are put
    for &n in scans {
        if mask.has_cell(n as usize) {
            end = put_next(line, end, b'b', n as usize);
        }
    }
    end
}

// The line of row r: its kind, and its cells.
pub fn put_option(system: &RowSystem, r: usize, line: &mut [u8]) -> usize
    requires { (r < system.now.d.rows) × (4096 ≤ length line.old) }
    ensures { let s = seen system.now in
        Put line.old 0 (option_line s.scans (row_at system.now.work.now r)) line.new result × (result ≤ 4096) }
{
    let cells = put_item(line, 0, b'p', row::kind_at(system.work, r));
    let scans = &system.chart.scans[..system.d.places];
    let end = put_cells(line, cells, row::mask_at(system.work, r), scans);
    line[end] = b'\n';
    end + 1
}
