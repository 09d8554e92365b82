// Fast's list over a row system, whole or from an entry on, as far as there is room for it.
ghost use Rattle.std.specs.Prelude.{◌&&◌, map, ◌≡◌, ◌*◌, ◌≤◌, eqb, get_or, length};
ghost use Rattle.definitions.specs.Emission.{emits};
ghost use Rattle.definitions.specs.Refusals.{identifies};
ghost use Rattle.lists.specs.Lists.{below};
ghost use Rattle.rows.specs.Charts.{kind_copies};
ghost use Rattle.rows.specs.RowSystems.{seen};
ghost use Rattle.kept.specs.Emission.{emitted_of};
ghost use Rattle.kept.specs.Wanted.{identified};
ghost use Rattle.fast.specs.Listing.{cells_in, fast_answers};

use super::state::State;
use super::{pruning, search};
use kept::emission::Emission;
use kept::wanted::Wanted;
use masks::Mask;
use rows::chart::Chart;
use rows::row_system::RowSystem;

// The cells of all copies of n kinds together.
fn cells_of_all(chart: &Chart, n: usize) -> usize
    requires { n ≤ 16 }
    ensures { result ≡ cells_in chart.now n }
{
    let mut cells = 0;
    // the cells of the kinds before k
    for k in 0..n {
        cells += chart.copies_of(k) * chart.size_of(k);
    }
    cells
}

// Whether kind 0 is placed first: turned packings are identified, it has one copy, and all copies together have as many cells as the board.
fn is_kind_0_first(system: &RowSystem, turned: bool) -> bool
    ensures { let s = system.now in
        let copies = map (kind_copies s.chart.now.kinds) (below s.d.kinds) in
        result ≡ turned && (eqb (get_or copies 0 0) 1 && eqb (cells_in s.chart.now s.d.kinds) s.d.size) }
{
    let d = system.d;
    if !turned {
        return false;
    }
    if d.kinds == 0 {
        return false;
    }
    system.chart.copies_of(0) == 1 && cells_of_all(system.chart, d.kinds) == d.size
}

// What `list` below emits, by what is wanted.
fn list_over(wanted: &Wanted, answers: &mut [u8], e: Emission) -> Emission
    requires { let w = wanted.now in w.capacity * (2 * w.system.d.places) ≤ length answers.old }
    ensures { let w = wanted.now in
        let old = emitted_of e w.last.now answers.old in
        emitted_of result w.last.now answers.new ≡ emits w.capacity (fast_answers (seen w.system) (identified w)) old }
{
    let system = &wanted.system;
    let mut state = State::begin(system.chart, system.d.kinds);
    if is_kind_0_first(system, wanted.turned) {
        return pruning::search_first(wanted, &mut state, answers, e);
    }
    search::search(wanted, &mut state, Mask::empty(), answers, e)
}

// The answers of Fast's list, one after the other, until the page is full and a further one is known.
pub fn list(
    system: &RowSystem,
    turned: bool,
    mirrored: bool,
    capacity: usize,
    last: &[u8],
    answers: &mut [u8],
    e: Emission,
) -> Emission
    requires { capacity * (2 * system.now.d.places) ≤ length answers.old }
    ensures { let old = emitted_of e last.now answers.old in
        emitted_of result last.now answers.new ≡ emits capacity (fast_answers (seen system.now) (identifies turned mirrored)) old }
{
    let wanted = Wanted::new(system, turned, mirrored, capacity, last);
    list_over(&wanted, answers, e)
}
