// A row: eight words of a slice, read one by one. (Words and no struct: the slice is a work slice, which the page call for C lends as words, or memory in its
// place.)
ghost use Rattle.std.specs.Prelude.{◌≡◌, ◌+◌, ◌*◌, ◌≤◌, length};
ghost use Rattle.rows.specs.Rows.{mask_at, row_at};

use masks::Mask;

// The cells of a row.
#[tactic(auto, unfolding(crate::specs::Rows::mask_at))]
pub fn mask_at(work: &[u64], r: usize) -> Mask
    requires { 8 * r + 8 ≤ length work.now }
    ensures { result ≡ mask_at work.now r }
{
    Mask {
        low: work[8 * r],
        high: work[8 * r + 1],
    }
}

// The kind of a row.
#[tactic(auto, unfolding(crate::specs::Rows::row_at))]
pub fn kind_at(work: &[u64], r: usize) -> usize
    requires { 8 * r + 8 ≤ length work.now }
    ensures { result ≡ (row_at work.now r).kind }
{
    work[8 * r + 2] as usize
}

// The first cell of a row, its p.
#[tactic(auto, unfolding(crate::specs::Rows::row_at))]
pub fn first_at(work: &[u64], r: usize) -> usize
    requires { 8 * r + 8 ≤ length work.now }
    ensures { result ≡ (row_at work.now r).p }
{
    work[8 * r + 3] as usize
}
