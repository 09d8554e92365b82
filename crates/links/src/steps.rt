// The steps of dancing links. A step and its undoing (`unlink`, `relink`) go over the same nodes in opposite orders: no type, size or constant tells them
// apart, so each is a function.
// That a node's number is below 4,096 stays a clause: it is an index of the array, and what a field holds is a plain number.
ghost use Rattle.std.specs.Prelude.{◌≡◌, true, cond, List, ℕ, ◌+◌, ◌-◌, ◌≤◌, ◌<◌, length, get_or, eqb};
ghost use Rattle.links.specs.Search.{spent, regained, Takes, Gives};
ghost use Rattle.links.specs.Links.{column_of, size_of, copies_of};
ghost use Rattle.links.specs.Links.{Still, unlink as unlinked, relink as relinked, Matrix, LawfulMatrix, Fields};
ghost use Rattle.links.specs.Build.{headed, inserted, link_last, Joinable, Headed, Partial, Linkable};
ghost use Rattle.links.specs.Cover.{Linked, dec, inc, One, Back, hide_one, show_one, Reduced, Holds, Hidable, Hidden, hide};
ghost use Rattle.links.specs.Cover.{Coverable, Covered, Open, cover, Run, Runnable, Ran, run_to};

use super::nodes::{Field, Links, get, set};

// Takes x out of its column's ring; its own fields keep its old neighbours.
#[tactic(auto, unfolding(crate::specs::Links::unlink))]
fn unlink(links: &mut Links, x: usize)
    requires { Linked links.old x }
    ensures { links.new ≡ unlinked links.old x }
{
    let above = get(links, x, Field::Up);
    let below = get(links, x, Field::Down);
    set(links, above, Field::Down, below);
    set(links, below, Field::Up, above);
}

// Puts x back between the neighbours that its fields name.
#[tactic(auto, unfolding(crate::specs::Links::relink))]
fn relink(links: &mut Links, x: usize)
    requires { Linked links.old x }
    ensures { links.new ≡ relinked links.old x }
{
    let above = get(links, x, Field::Up);
    let below = get(links, x, Field::Down);
    set(links, above, Field::Down, x);
    set(links, below, Field::Up, x);
}

// One possible row less in column j.
#[tactic(auto, unfolding(crate::specs::Cover::dec))]
fn count_down(links: &mut Links, j: usize)
    requires j_bound { j < 4096 }
    requires bound { 1 ≤ size_of links.old j }
    ensures { links.new ≡ dec links.old j }
{
    let n = get(links, j, Field::Size);
    set(links, j, Field::Size, n - 1);
}

// One possible row more in column j.
#[tactic(auto, unfolding(crate::specs::Cover::inc))]
fn count_up(links: &mut Links, j: usize)
    requires j_bound { j < 4096 }
    requires bound { size_of links.old j < 4096 }
    ensures { links.new ≡ inc links.old j }
{
    let n = get(links, j, Field::Size);
    set(links, j, Field::Size, n + 1);
}

// One node y of the row of x: its column counts a row less, and y leaves its ring unless it is x.
#[tactic(auto, using(crate::proofs::Unchanged::size_unlinked), unfolding(crate::specs::Cover::hide_one))]
fn hide_one(links: &mut Links, x: usize, y: usize)
    requires { One links.old y }
    ensures { links.new ≡ hide_one links.old x y }
{
    let j = get(links, y, Field::Column);
    if y != x {
        unlink(links, y);
    }
    count_down(links, j);
}

// Undoes `hide_one`.
#[tactic(auto, using(crate::proofs::Unchanged::up_counted, crate::proofs::Unchanged::down_counted), unfolding(crate::specs::Cover::show_one))]
fn show_one(links: &mut Links, x: usize, y: usize)
    requires { Back links.old y }
    ensures { links.new ≡ show_one links.old x y }
{
    let j = get(links, y, Field::Column);
    count_up(links, j);
    if y != x {
        relink(links, y);
    }
}

// Hides the row of x from every column but x's own, where it stays in the ring but counts no more.
fn hide_row(links: &mut Links, x: usize)
    requires { Hidable links.old x }
    ensures { (w : Reduced) → Holds w links.old → w.alive x ≡ true
        → links.new ≡ hide w.t x links.old }
{
    let first = get(links, x, Field::First);
    let end = get(links, x, Field::End);
    // the nodes of the row before y are hidden
    for y in first..end {
        hide_one(links, x, y);
    }
}

// Undoes `hide_row`: the links are what they were before it.
fn show_row(links: &mut Links, x: usize)
    requires { Hidden links.old x }
    ensures { (w : Reduced) (m : List ℕ) → Holds w m → w.alive x ≡ true
        → links.old ≡ hide w.t x m → links.new ≡ m }
{
    let first = get(links, x, Field::First);
    let end = get(links, x, Field::End);
    // the nodes behind y are back, in the reverse order
    for y in (first..end).rev() {
        show_one(links, x, y);
    }
}

// Hides every row that is in the ring of column c. The ring itself stays as it is.
fn purge_column(links: &mut Links, c: usize)
    requires { Coverable links.old c }
    ensures { (w : Reduced) → Holds w links.old → c < w.t.cols → Open w c
        → links.new ≡ cover w c links.old }
{
    let mut k = get(links, c, Field::Down);
    // the rows above node k are hidden; none of this touches the ring of c, so it leads on
    while k != c {
        hide_row(links, k);
        k = get(links, k, Field::Down);
    }
}

// Undoes `purge_column`, walking the ring upwards: the links are what they were before it.
fn unpurge_column(links: &mut Links, c: usize)
    requires { Covered links.old c }
    ensures { (w : Reduced) (m : List ℕ) → Holds w m → c < w.t.cols → Open w c
        → links.old ≡ cover w c m → links.new ≡ m }
{
    let mut k = get(links, c, Field::Up);
    // the rows below node k are back
    while k != c {
        show_row(links, k);
        k = get(links, k, Field::Up);
    }
}

// Covers the columns of the nodes a to b - 1, which are nodes of one row that is still possible.
pub fn purge_run(links: &mut Links, a: usize, b: usize)
    requires { Runnable links.old a b }
    ensures { (w : Reduced) → Holds w links.old → Run w a b
        → links.new ≡ run_to w a links.old (b - a) }
{
    // the columns of the nodes before y are covered
    for y in a..b {
        let c = get(links, y, Field::Column);
        purge_column(links, c);
    }
}

// Undoes `purge_run`: the links are what they were before it.
pub fn unpurge_run(links: &mut Links, a: usize, b: usize)
    requires { Ran links.old a b }
    ensures { (w : Reduced) (m : List ℕ) → Holds w m → Run w a b
        → links.old ≡ run_to w a m (b - a) → links.new ≡ m }
{
    // the columns of the nodes behind y are back, in the reverse order
    for y in (a..b).rev() {
        let c = get(links, y, Field::Column);
        unpurge_column(links, c);
    }
}

// Takes a copy of the kind whose column the node x, the first of a row, is in. The result is the first node of the row whose column is used up: x itself
// if this was the last copy.
#[tactic(auto, unfolding(crate::specs::Search::spent))]
pub fn take_copy(links: &mut Links, x: usize) -> usize
    requires { Takes links.old x }
    ensures less { links.new ≡ spent links.old (column_of links.old x) }
    ensures first { result ≡ cond (eqb (copies_of links.old (column_of links.old x)) 1) x (x + 1) }
{
    let j = get(links, x, Field::Column);
    let n = get(links, j, Field::Copies);
    set(links, j, Field::Copies, n - 1);
    if n == 1 { x } else { x + 1 }
}

// Gives the copy back.
#[tactic(auto, unfolding(crate::specs::Search::regained))]
pub fn give_copy(links: &mut Links, x: usize)
    requires { Gives links.old x }
    ensures { links.new ≡ regained links.old (column_of links.old x) }
{
    let j = get(links, x, Field::Column);
    let n = get(links, j, Field::Copies);
    set(links, j, Field::Copies, n + 1);
}

// Column i's head, alone in its ring.
#[tactic(auto, unfolding(crate::specs::Build::headed))]
fn link_head(links: &mut Links, i: usize)
    requires { i < 4096 }
    ensures { links.new ≡ headed links.old i }
{
    set(links, i, Field::Up, i);
    set(links, i, Field::Down, i);
    set(links, i, Field::Size, 0);
}

// Node x, as the last of its column's ring.
#[tactic(auto, using(crate::proofs::Unchanged::size_inserted), unfolding(crate::specs::Build::link_last))]
fn link_last(links: &mut Links, x: usize)
    requires { Joinable links.old x }
    ensures { links.new ≡ link_last links.old x }
{
    let c = get(links, x, Field::Column);
    let u = get(links, c, Field::Up);
    insert(links, x, c, u);
    count_up(links, c);
}

// Node x between u, the last node of column c, and c's head.
#[tactic(auto, unfolding(crate::specs::Build::inserted))]
fn insert(links: &mut Links, x: usize, c: usize, u: usize)
    requires { (x < 4096) × (c < 4096) × (u < 4096) }
    ensures { links.new ≡ inserted links.old x c u }
{
    set(links, x, Field::Up, u);
    set(links, x, Field::Down, c);
    set(links, u, Field::Down, x);
    set(links, c, Field::Up, x);
}

// The heads of all columns.
pub fn link_heads(links: &mut Links, cols: usize)
    requires { cols ≤ 4096 }
    ensures linked { (t : Matrix) → LawfulMatrix t → Fields t links.old → cols ≡ t.cols
        → Headed t cols links.new }
    ensures behind { (i : ℕ) → Still i → get_or links.new i 0 ≡ get_or links.old i 0 }
    ensures room { 32768 ≤ length links.old }
{
    // the heads before i are linked
    for i in 0..cols {
        link_head(links, i);
    }
}

// The nodes of all rows, in ascending order.
pub fn link_nodes(links: &mut Links, cols: usize, nodes: usize)
    requires { Linkable links.old cols nodes }
    ensures linked { (t : Matrix) → LawfulMatrix t → Partial t cols links.old → cols ≡ t.cols → nodes ≡ t.nodes
        → Partial t nodes links.new }
    ensures behind { (i : ℕ) → Still i → get_or links.new i 0 ≡ get_or links.old i 0 }
{
    // each column's ring has its nodes before x
    for x in cols..nodes {
        link_last(links, x);
    }
}
