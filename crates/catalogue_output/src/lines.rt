// The lines that `catalogue` prints. Each function puts its bytes into a buffer from a place on, and hands back the place behind them.
ghost use Rattle.std.specs.Prelude.{◌≡◌, ◌+◌, ◌*◌, ◌/◌, ◌∷◌, [], ◌++◌, ◌<◌, ◌≤◌, true, leb, length, map};
ghost use Rattle.lists.specs.Lists.{all};
ghost use Rattle.definitions.specs.Files.{decimal};
ghost use Rattle.definitions.specs.CatalogueCalls.{piece_line, count_line};
ghost use Rattle.texts.specs.Put.{Put};
ghost use Rattle.catalogue_output.specs.Entries.{HasLine, HaveLines, first_lines, entry_grid};

// A side of one digit, and a tab behind it.
fn put_side(out: &mut [u8], at: usize, side: u8) -> usize
    requires { (at + 21 ≤ length out.old) × (side < 10) }
    ensures { Put out.old at (decimal side ++ 9 ∷ []) out.new result × (result ≡ at + 2) }
{
    let tab = texts::put_decimal(out, at, side as u64);
    out[tab] = b'\t';
    tab + 1
}

// Cells as the digits `0` and `1`.
fn put_cells(out: &mut [u8], at: usize, cells: &[u8]) -> usize
    requires { (at + length cells.now ≤ length out.old) × (all (λ n. leb n 1) cells.now ≡ true) }
    ensures { Put out.old at (map (λ n. n + 48) cells.now) out.new result }
{
    // the first i cells are put
    for (i, &cell) in cells.iter().enumerate() {
        out[at + i] = cell + b'0';
    }
    at + cells.len()
}

// The line of an entry: one copy of the piece, as a tray's file has it.
fn put_piece(out: &mut [u8], at: usize, entry: &[u8]) -> usize
    requires { (at + 64 ≤ length out.old) × HasLine entry.now }
    ensures { Put out.old at (piece_line (entry_grid entry.now)) out.new result × (result ≤ at + 33) }
{
    let [a, b, c] = [entry[0], entry[1], entry[2]];
    let volume = a as usize * b as usize * c as usize;
    let a_at = texts::put_bytes(out, at, b"piece\t1\t");
    let b_at = put_side(out, a_at, a);
    let c_at = put_side(out, b_at, b);
    let cells_at = put_side(out, c_at, c);
    let end = put_cells(out, cells_at, &entry[3..3 + volume]);
    out[end] = b'\n';
    end + 1
}

// The lines of entries, one after the other.
fn put_pieces(out: &mut [u8], at: usize, entries: &[u8]) -> usize
    requires { HaveLines (length entries.now / 21) entries.now × (at + length entries.now / 21 * 33 + 64 ≤ length out.old) }
    ensures { let n = length entries.now / 21 in
        Put out.old at (first_lines entries.now n) out.new result × (result ≤ at + n * 33) }
{
    let mut end = at;
    // the lines of the entries before this one are put, and `end` is the place behind them
    for entry in entries.chunks_exact(21) {
        end = put_piece(out, end, entry);
    }
    end
}

// All of it: a line for each entry, and last how many they are.
pub(crate) fn put_listing(out: &mut [u8], entries: &[u8]) -> usize
    requires { HaveLines (length entries.now / 21) entries.now × (length entries.now / 21 * 33 + 64 ≤ length out.old) }
    ensures { let n = length entries.now / 21 in
        Put out.old 0 (first_lines entries.now n ++ count_line n) out.new result }
{
    let end = put_pieces(out, 0, entries);
    texts::put_labelled(out, end, b"pieces", (entries.len() / 21) as u64)
}
