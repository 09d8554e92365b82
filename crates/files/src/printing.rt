// The lines that `pack` prints; a refusal's is printed by `dlx1` and `catalogue` too. Each function puts its bytes into a buffer from a place on, and hands
// back the place behind them.
ghost use Rattle.std.specs.Prelude.{◌≡◌, ◌+◌, ◌*◌, ◌%◌, ◌≤◌, length};
ghost use Rattle.definitions.specs.Files.{cell_shown, cells_shown, entry_line, last_line, refused_line};
ghost use Rattle.texts.specs.Put.{Put};

// A cell of the box: piece and copy, or `-` where the board is unfilled: 255 and 255, as the C interface has it.
fn put_cell(out: &mut [u8], at: usize, piece: u8, copy: u8) -> usize
    requires { at + 41 ≤ length out.old }
    ensures { Put out.old at (cell_shown piece copy) out.new result × (result ≤ at + 7) }
{
    if piece == 255 && copy == 255 {
        out[at] = b'-';
        return at + 1;
    }
    let dot = texts::put_decimal(out, at, piece as u64);
    out[dot] = b'.';
    texts::put_decimal(out, dot + 1, copy as u64)
}

// The cells of an answer, two bytes each, parted by spaces.
fn put_cells(out: &mut [u8], at: usize, answer: &[u8]) -> usize
    requires { (at + 4 * length answer.now + 41 ≤ length out.old) × (length answer.now % 2 ≡ 0) }
    ensures { Put out.old at (cells_shown answer.now) out.new result × (result ≤ at + 4 * length answer.now) }
{
    let mut end = at;
    // the first i cells are put, and `end` is the place behind them
    for (i, cell) in answer.chunks_exact(2).enumerate() {
        if 0 < i {
            out[end] = b' ';
            end += 1;
        }
        end = put_cell(out, end, cell[0], cell[1]);
    }
    end
}

// The line of a packing: the entry's number and its answer.
pub fn put_entry(out: &mut [u8], at: usize, number: u64, answer: &[u8]) -> usize
    requires { (at + 4 * length answer.now + 64 ≤ length out.old) × (length answer.now % 2 ≡ 0) }
    ensures { Put out.old at (entry_line number answer.now) out.new result × (result ≤ at + 4 * length answer.now + 64) }
{
    let tab = texts::put_decimal(out, at, number);
    out[tab] = b'\t';
    let end = put_cells(out, tab + 1, answer);
    out[end] = b'\n';
    end + 1
}

// The last line of a listing: how many packings there are.
#[tactic(auto, unfolding(definitions::specs::Files::last_line))]
pub fn put_last(out: &mut [u8], at: usize, count: u64) -> usize
    requires { at + 64 ≤ length out.old }
    ensures { Put out.old at (last_line count) out.new result × (result ≤ at + 64) }
{
    texts::put_labelled(out, at, b"packings", count)
}

// The line of a refusal. (Not one function with `put_last`: each is a word and a promise of its own over `put_labelled`.)
#[tactic(auto, unfolding(definitions::specs::Files::refused_line))]
pub fn put_refused(out: &mut [u8], at: usize, number: u64) -> usize
    requires { at + 64 ≤ length out.old }
    ensures { Put out.old at (refused_line number) out.new result × (result ≤ at + 64) }
{
    texts::put_labelled(out, at, b"refused", number)
}
