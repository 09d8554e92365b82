// Where the rows of each kind stand in a packing that goes kind by kind.
ghost use Rattle.std.specs.Prelude.{◌≡◌, ℕ, ◌+◌, ◌*◌, ◌≤◌, ◌<◌, T, ltb, get_or, length};
ghost use Rattle.lists.specs.Lists.{all};

use rows::answers;

// Where the rows of each kind begin, and behind these where the last ones end. (A number of kinds beside an array: nothing is put on a heap.)
#[derive(Drop)]
pub struct Starts {
    kinds: usize,
    at: [usize; 17],
    ghost few: { kinds ≤ 16 },
    ghost rise: { (k : ℕ) → k < kinds → get_or at k 0 ≤ get_or at (k + 1) 0 },
}

impl Starts {
    ghost use Rattle.kept.specs.Normal.{KindStarts};
    ghost use Rattle.kept.specs.Starts.{part_of};

    // Those of a packing with these rows.
    pub fn of(work: &[u64], rows: &[u16], kinds: usize) -> Starts
        requires { (kinds ≤ 16) × (length rows.now ≤ 128) × T (all (λ r. ltb (8 * r + 7) (length work.now)) rows.now) }
        ensures { (result.kinds ≡ kinds) × KindStarts work.now rows.now kinds result.at }
    {
        let mut starts = [0usize; 17];
        let mut at = 0;
        // at: how many rows are of kinds before k
        for k in 0..kinds {
            starts[k] = at;
            at += answers::used_before(work, rows, k);
        }
        starts[kinds] = at;
        Starts { kinds, at: starts }
    }

    // The rows of a kind; none of what is no kind.
    pub fn rows_of<'a>(&self, rows: &'a [u16], kind: usize) -> &'a [u16]
        requires { (k : ℕ) → k ≤ self.now.kinds → get_or self.now.at k 0 ≤ length rows.now }
        ensures { result.now ≡ part_of self.now.at self.now.kinds kind rows.now }
    {
        if kind < self.kinds {
            &rows[self.at[kind]..self.at[kind + 1]]
        } else {
            &[]
        }
    }
}
