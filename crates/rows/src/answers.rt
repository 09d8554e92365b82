// Answers from the rows of a packing (`reconstruct_answer`).
ghost use Rattle.std.specs.Prelude.{◌≡◌, ◌+◌, ◌*◌, ◌≤◌, ◌<◌, T, eqb, ltb, get_or, length, take};
ghost use Rattle.std.proofs.Math.Seq.{paste};
ghost use Rattle.lists.specs.Lists.{all, below, how_many, same};
ghost use Rattle.rows.specs.Rows.{cells_of};
ghost use Rattle.rows.specs.Systems.{owned_in};
ghost use Rattle.rows.specs.Answering.{Held, answers_over, as_copy, copies_by, laid, no_copy, path_in, taken_in, told_of};

use super::chart::Chart;
use super::{Dims, row};
use masks::Mask;

// A copy of a piece: the piece's number as lent, and the copy's.
#[derive(Clone, Copy)]
pub struct Copied {
    pub piece: u8,
    pub copy: u8,
}

// What an answer has where the board is unfilled. (No Option: an answer is bytes, lent through the C interface, and these are two of them.)
const NO_COPY: Copied = Copied {
    piece: 255,
    copy: 255,
};

// Copy i of a kind, through its pieces in lent order; 255, 255 where it has no such copy.
fn copy_of(chart: &Chart, n: usize, kind: usize, i: usize) -> Copied
    requires { n ≤ 16 }
    ensures { as_copy result ≡ get_or (copies_by (owned_in chart.now.pieces n) kind) i no_copy }
{
    let mut left = i;
    // the copy is number `left` among those of the pieces from p on
    for p in 0..n {
        if chart.kind_of(p) == kind {
            let count = chart.count_of(p);
            if left < count {
                return Copied {
                    piece: p as u8,
                    copy: left as u8,
                };
            }
            left -= count;
        }
    }
    NO_COPY
}

// How many rows of a path are of a kind.
pub fn used_before(work: &[u64], path: &[u16], kind: usize) -> usize
    requires { T (all (λ r. ltb (8 * r + 7) (length work.now)) path.now) }
    ensures { (result ≡ how_many (λ q. eqb q.kind kind) (path_in work.now path.now)) × (result ≤ length path.now) }
{
    path.iter()
        .filter(|&&r| row::kind_at(work, r as usize) == kind)
        .count()
}

// A copy on the cells of a mask.
fn lay_copy(mask: Mask, c: Copied, told: &mut [u8; 256])
    ensures { told.new ≡ laid (cells_of mask) (as_copy c) told.old }
{
    let mut i = mask.next_cell(0);
    // the copy lies on the cells of the mask before i
    while i < 128 {
        told[2 * i] = c.piece;
        told[2 * i + 1] = c.copy;
        i = mask.next_cell(i + 1);
    }
}

// The two bytes of each scan number: the copy of the first row that covers it; 255, 255 where none does. Rows are laid from the last to the first, and the
// copies of a kind counted down.
fn tell_cells(d: Dims, work: &[u64], chart: &Chart, path: &[u16]) -> [u8; 256]
    requires { Held d work.now chart.now path.now }
    ensures { let taken = taken_in d work.now chart.now path.now in
        result ≡ answers_over taken (below 128) }
{
    let mut told = [255u8; 256];
    let mut kind = d.kinds;
    let mut used = 0;
    // the rows from i on are laid; `used` of the rows before the last one laid are of its kind
    for i in (0..path.len()).rev() {
        let r = path[i] as usize;
        let k = row::kind_at(work, r);
        if k == kind {
            used -= 1;
        } else {
            kind = k;
            used = used_before(work, &path[..i], k);
        }
        lay_copy(
            row::mask_at(work, r),
            copy_of(chart, d.pieces, kind, used),
            &mut told,
        );
    }
    told
}

// The copy at a place of the board's box, of which the two bytes of each scan number tell.
#[tactic(auto, unfolding(crate::specs::Answering::as_copy, crate::specs::Answering::told_of))]
fn copy_at(chart: &Chart, told: &[u8; 256], place: usize) -> Copied
    requires { place < 512 }
    ensures { as_copy result ≡ told_of told.now (get_or chart.now.scans place 0) }
{
    let cell = chart.scan_at(place);
    if cell < 128 {
        Copied {
            piece: told[2 * cell],
            copy: told[2 * cell + 1],
        }
    } else {
        NO_COPY
    }
}

// The answer of a packing whose rows are those of an ascending path: two bytes for each place of the board's box, from a place of the slice on.
// (The slice whole and a place in it, no subslice: the promise is one equation over the whole slice.)
pub fn reconstruct_answer(
    d: Dims,
    work: &[u64],
    chart: &Chart,
    path: &[u16],
    answers: &mut [u8],
    at: usize,
)
    requires { Held d work.now chart.now path.now × (d.places ≤ 512) × (at + 2 * d.places ≤ length answers.old) }
    ensures { let taken = taken_in d work.now chart.now path.now in
        let told = answers_over taken (take d.places chart.now.scans) in
        answers.new ≡ paste answers.old at told (2 * d.places) }
{
    let told = tell_cells(d, work, chart, path);
    // the copies at the places before i are written
    for i in 0..d.places {
        let c = copy_at(chart, &told, i);
        answers[at + 2 * i] = c.piece;
        answers[at + 2 * i + 1] = c.copy;
    }
}

// Whether a slice is the answer of a packing whose rows are those of an ascending path.
pub fn is_answer(d: Dims, work: &[u64], chart: &Chart, path: &[u16], last: &[u8]) -> bool
    requires { Held d work.now chart.now path.now × (d.places ≤ 512) }
    ensures { let taken = taken_in d work.now chart.now path.now in
        let told = answers_over taken (take d.places chart.now.scans) in
        result ≡ same told last.now }
{
    if last.len() != 2 * d.places {
        return false;
    }
    let told = tell_cells(d, work, chart, path);
    // the copies at the places before i are those of the slice
    for i in 0..d.places {
        let c = copy_at(chart, &told, i);
        if last[2 * i] != c.piece || last[2 * i + 1] != c.copy {
            return false;
        }
    }
    true
}
