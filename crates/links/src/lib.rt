// Dancing links (knuth_algo.rs): the columns' rings of nodes; rows and columns are taken out of them and put back again.
#![tactic(auto)]

mod nodes;
mod steps;

ghost use Rattle.std.specs.Prelude.{◌≡◌, Bool, true, List, ℕ, ◌-◌, ◌≤◌, ◌<◌, MatchOption, get_or, count_by};
ghost use Rattle.std.specs.List.{range_with_len};
ghost use Rattle.links.specs.Search.{better, has_row, pivot, Seek, Shape, Sized, Selectable, Selected, selected, first_covered};
ghost use Rattle.links.specs.Links.{down, first_of, end_of, size_of, copies_of, row_number, Still, Matrix, LawfulMatrix};
ghost use Rattle.links.specs.Build.{Posed, Stocked, Written, whole, every_column};
ghost use Rattle.links.specs.Cover.{Reduced};

pub use nodes::{Field, Links, first_links, get, read_links, set};

// Whether a column with n rows is tried before one with `least`.
fn is_better(n: usize, least: usize) -> bool
    ensures { result ≡ better n least }
{
    0 < n && n < least
}

// The first of the columns below `primary` with the fewest possible rows but at least one, if one has any. A chain by `filter` and `min_by_key` would
// read each size twice. (`fewest` is no part of `best`: it begins above each number of rows, so that one comparison decides, with or without a best.)
pub fn choose_column(links: &Links, primary: usize) -> Option<usize>
    requires { primary ≤ 4096 }
    ensures { let c = pivot (size_of links.now) primary in MatchOption result (c ≡ 4096) (λ found. (found ≡ c) × (c < primary)) }
{
    let mut best = None;
    let mut fewest = 65536;
    // of the columns before i, `best` is the first with the fewest rows, and these are `fewest`
    for i in 0..primary {
        let n = get(links, i, Field::Size);
        if is_better(n, fewest) {
            fewest = n;
            best = Some(i);
        }
    }
    best
}

// How many of the columns below `primary` have a possible row.
pub fn open_columns(links: &Links, primary: usize) -> usize
    requires { primary ≤ 4096 }
    ensures { result ≡ count_by (has_row links.now) (range_with_len 0 primary) }
{
    (0..primary)
        .filter(|&j| 0 < get(links, j, Field::Size))
        .count()
}

// The number of cells of the row of k.
pub fn row_cells(links: &Links, k: usize) -> usize
    requires { Sized links.now k }
    ensures { result ≡ end_of links.now k - first_of links.now k - 1 }
{
    let first = get(links, k, Field::First);
    let end = get(links, k, Field::End);
    end - first - 1
}

// The node below k in its column's ring.
pub fn below(links: &Links, k: usize) -> usize
    requires { k < 4096 }
    ensures { result ≡ down links.now k }
{
    get(links, k, Field::Down)
}

// The number of the row of k.
pub fn row_of(links: &Links, k: usize) -> usize
    requires { k < 4096 }
    ensures { result ≡ row_number links.now k }
{
    get(links, k, Field::Row)
}

// Chooses the row of k, which is still possible: a copy of its kind is taken, and its columns are covered, that of its kind where this was the last copy.
// The result is the first node covered.
pub fn select_row(links: &mut Links, k: usize) -> usize
    requires { Selectable links.old k }
    ensures done { (w : Reduced) (uncovered : ℕ → Bool) (copies : ℕ → ℕ) (primary left : ℕ)
        → Seek w uncovered copies primary left links.old → w.alive k ≡ true
        → links.new ≡ selected w copies k links.old }
    ensures first { (w : Reduced) (uncovered : ℕ → Bool) (copies : ℕ → ℕ) (primary left : ℕ)
        → Seek w uncovered copies primary left links.old → w.alive k ≡ true
        → result ≡ first_covered w.t copies k }
{
    let first = get(links, k, Field::First);
    let end = get(links, k, Field::End);
    let a = steps::take_copy(links, first);
    steps::purge_run(links, a, end);
    a
}

// Undoes `select_row`, which gave a: the links are what they were before it.
pub fn unselect_row(links: &mut Links, k: usize, a: usize)
    requires { Selected links.old k a }
    ensures { (w : Reduced) (uncovered : ℕ → Bool) (copies : ℕ → ℕ) (primary left : ℕ) (m : List ℕ)
        → Seek w uncovered copies primary left m → w.alive k ≡ true
        → a ≡ first_covered w.t copies k → links.old ≡ selected w copies k m → links.new ≡ m }
{
    let first = get(links, k, Field::First);
    let end = get(links, k, Field::End);
    steps::unpurge_run(links, a, end);
    steps::give_copy(links, first);
}

// The rings of a matrix whose columns, rows and copies stand in links: every row is possible.
pub fn link_all(links: &mut Links, primary: usize, cols: usize, nodes: usize)
    requires { Posed links.old primary cols nodes }
    ensures linked { (t : Matrix) (law : LawfulMatrix t) → Written t links.old → Shape t primary → Stocked t links.old
        → cols ≡ t.cols → nodes ≡ t.nodes
        → Seek (whole t law) every_column (copies_of links.old) primary primary links.new }
    ensures behind { (i : ℕ) → Still i → get_or links.new i 0 ≡ get_or links.old i 0 }
{
    steps::link_heads(links, cols);
    steps::link_nodes(links, cols, nodes);
}
