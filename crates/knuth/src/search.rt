// The search as a cycle of two functions: choosing a column and trying its rows, each calling the other (`search_internal`).
ghost use Rattle.std.specs.Prelude.{◌≡◌, Bool, ℕ, ◌*◌, ◌≤◌, ◌<◌, length};
ghost use Rattle.rows.specs.RowSystems.{seen};
ghost use Rattle.kept.specs.Emission.{emitted_of};
ghost use Rattle.kept.specs.Wanted.{identified};
ghost use Rattle.kept.specs.Packings.{AreRows};
ghost use Rattle.links.specs.Cover.{Reduced};
ghost use Rattle.links.specs.Search.{At, Seek};
ghost use Rattle.knuth.specs.Matrix.{matrix_of};
ghost use Rattle.knuth.specs.Listing.{Choosable, Tryable, emit_all, knuth_below, knuth_rows};

use kept::emission;
use kept::emission::Emission;
use kept::path::Path;
use kept::wanted::Wanted;
use links::Links;

// The column that a search covers: its cell, and how many cells are uncovered.
#[derive(Clone, Copy)]
pub struct Column {
    pub cell: usize,
    pub left: usize,
}

// The packings that extend the rows chosen: the uncovered cell with the fewest rows still possible, but at least one, is covered in each way.
#[cycle(choose_try_rows)]
pub fn choose(
    wanted: &Wanted,
    links: &mut Links,
    left: usize,
    path: &mut Path,
    answers: &mut [u8],
    e: Emission,
) -> Emission
    requires ready { let w = wanted.now in
        AreRows w.system.d path.old × (w.capacity * (2 * w.system.d.places) ≤ length answers.old) }
    requires choosable { Choosable (seen wanted.now.system) links.old left path.old }
    ensures same { (links.new ≡ links.old) × (path.new ≡ path.old) }
    ensures found { let asked = wanted.now in
        let s = asked.system in
        let S = seen s in
        let old = emitted_of e asked.last.now answers.old in
        let new = emitted_of result asked.last.now answers.new in
        ((w : Reduced) (uncovered : ℕ → Bool) (copies : ℕ → ℕ) (g : ℕ) → Seek w uncovered copies s.d.size left links.old
        → w.t ≡ matrix_of S → left < g → new ≡ emit_all S (identified asked) asked.capacity (knuth_below S path.old g w copies left) old) }
{
    if left == 0 {
        return emission::emit_kept(wanted, path.rows(), answers, e);
    }
    if links::open_columns(links, wanted.system.d.size) < left {
        return e;
    }
    let Some(cell) = links::choose_column(links, wanted.system.d.size) else {
        return e;
    };
    let k = links::below(links, cell);
    let at = Column { cell, left };
    try_rows(wanted, links, at, k, path, answers, e)
}

// The same, by the rows of a column from node k of its ring on.
#[cycle(choose_try_rows)]
fn try_rows(
    wanted: &Wanted,
    links: &mut Links,
    at: Column,
    k: usize,
    path: &mut Path,
    answers: &mut [u8],
    e: Emission,
) -> Emission
    requires ready { let w = wanted.now in
        AreRows w.system.d path.old × (w.capacity * (2 * w.system.d.places) ≤ length answers.old) }
    requires tryable { Tryable (seen wanted.now.system) links.old at.left at.cell k path.old }
    ensures same { (links.new ≡ links.old) × (path.new ≡ path.old) }
    ensures found { let asked = wanted.now in
        let s = asked.system in
        let S = seen s in
        let old = emitted_of e asked.last.now answers.old in
        let new = emitted_of result asked.last.now answers.new in
        ((w : Reduced) (uncovered : ℕ → Bool) (copies : ℕ → ℕ) (g : ℕ) → Seek w uncovered copies s.d.size at.left links.old
        → At w s.d.size at.cell k → w.t ≡ matrix_of S → at.left ≤ g
        → new ≡ emit_all S (identified asked) asked.capacity (knuth_rows S path.old g w copies at.left at.cell k) old) }
{
    if k == at.cell {
        return e;
    }
    let r = links::row_of(links, k);
    if !wanted.system.leads(wanted.shown_while(&e), r) {
        let passed = links::below(links, k);
        return try_rows(wanted, links, at, passed, path, answers, e);
    }
    let cells = links::row_cells(links, k);
    path.push(r);
    let a = links::select_row(links, k);
    let left = at.left - cells;
    let s = choose(wanted, links, left, path, answers, e);
    links::unselect_row(links, k, a);
    path.pop();
    if s.further {
        return s;
    }
    let next = links::below(links, k);
    try_rows(wanted, links, at, next, path, answers, s)
}
