// The search: the first uncovered cell is covered in each way that is still possible.
ghost use Rattle.std.specs.Prelude.{◌&&◌, ◌||◌, not, [], ◌≡◌, ◌+◌, ◌*◌, ◌-◌, ◌≤◌, ◌<◌, get_or, length, set};
ghost use Rattle.lists.specs.Lists.{any, from};
ghost use Rattle.definitions.specs.Emission.{emits};
ghost use Rattle.definitions.specs.Starts.{waits_at};
ghost use Rattle.definitions.specs.Orders.{choose};
ghost use Rattle.masks.specs.Masks.{apart, has};
ghost use Rattle.rows.specs.Rows.{mask_at, row_at};
ghost use Rattle.rows.specs.RowSystems.{seen};
ghost use Rattle.rows.specs.Shown.{shows_row};
ghost use Rattle.rows.specs.Systems.{owned_in};
ghost use Rattle.kept.specs.Emission.{emitted_of};
ghost use Rattle.kept.specs.Wanted.{identified};
ghost use Rattle.kept.specs.Packings.{AreRows};
ghost use Rattle.fast.specs.Searching.{Searching, fast_below, goes_on, state_by};

use super::state::State;
use kept::emission;
use kept::emission::Emission;
use kept::wanted::Wanted;
use masks::Mask;
use rows::row;
use rows::row_system::RowSystem;

// Whether none of row r's cells is covered.
fn is_clear(work: &[u64], covered: Mask, r: usize) -> bool
    requires { 8 * r + 8 ≤ length work.now }
    ensures { result ≡ apart 128 (has (mask_at work.now r)) (has covered) }
{
    !row::mask_at(work, r).meets(covered)
}

// Whether one of the rows from `start` to below `end` has no cell that is covered.
fn any_clear(work: &[u64], start: usize, end: usize, covered: Mask) -> bool
    requires { (start ≤ end) × (8 * end ≤ length work.now) }
    ensures { result ≡ any (λ r. apart 128 (has (mask_at work.now r)) (has covered)) (from start (end - start)) }
{
    // no row before r has none
    for r in start..end {
        if is_clear(work, covered, r) {
            return true;
        }
    }
    false
}

// Whether a search goes on when a row of a kind is placed and these cells are covered: none is uncovered, or a row can be placed at the first that is.
fn goes_on(system: &RowSystem, state: &State, kind: usize, covered: Mask) -> bool
    requires { 0 < get_or state.now.left kind 0 }
    ensures { let S = seen system.now in
        let left = state.now.left in
        result ≡ goes_on S (state_by S (set left kind (get_or left kind 0 - 1)) covered []) }
{
    let c = covered.next_open(0);
    if system.d.size <= c {
        return true;
    }
    // no row of a kind before k can be placed there
    for k in 0..system.d.kinds {
        if 0 < state.left_after(kind, k) {
            let start = system.chart.start_at(128 * k + c);
            let end = system.chart.start_at(128 * k + c + 1);
            if any_clear(system.work, start, end, covered) {
                return true;
            }
        }
    }
    false
}

// Whether row r, of a kind that has copies left, is tried: none of its cells is covered, while an answer is waited for the answer shows it, and the search
// goes on below it.
fn is_tried(
    wanted: &Wanted,
    state: &State,
    covered: Mask,
    e: &Emission,
    kind: usize,
    r: usize,
) -> bool
    requires { let s = wanted.now.system in
        (r < s.d.rows) × (kind ≡ (row_at s.work.now r).kind) × (0 < get_or state.now.left kind 0) }
    ensures { let s = wanted.now.system in
        let row = row_at s.work.now r in
        let shows = shows_row (owned_in s.chart.now.pieces s.d.pieces) wanted.now.shown row in
        let below = choose (state_by (seen s) state.now.left covered []) row in
        result ≡ apart 128 (has (mask_at s.work.now r)) (has covered) && ((not (waits_at e.now.start) || shows) && goes_on (seen s) below) }
{
    let system = &wanted.system;
    let mask = row::mask_at(system.work, r);
    is_clear(system.work, covered, r)
        && system.leads(wanted.shown_while(e), r)
        && goes_on(system, state, kind, covered.union(mask))
}

// The packings that extend the rows chosen, one after the other, until the page is full and a further one is known.
pub fn search(
    wanted: &Wanted,
    state: &mut State,
    covered: Mask,
    answers: &mut [u8],
    e: Emission,
) -> Emission
    requires ready { let w = wanted.now in
        AreRows w.system.d state.old.path × (w.capacity * (2 * w.system.d.places) ≤ length answers.old) }
    requires searching { Searching (seen wanted.now.system) state.old.left covered state.old.path }
    ensures page { let w = wanted.now in
        let S = seen w.system in
        let t = state_by S state.old.left covered state.old.path in
        let old = emitted_of e w.last.now answers.old in
        emitted_of result w.last.now answers.new ≡ emits w.capacity (fast_below S (identified w) t) old }
    ensures restored { (state.new.left ≡ state.old.left) × (state.new.path ≡ state.old.path) }
{
    let system = &wanted.system;
    let c = covered.next_open(0);
    if system.d.size <= c {
        return emission::emit_kept(wanted, state.rows(), answers, e);
    }
    let mut s = e;
    // The rows at cell c, kind by kind: s is what those of the kinds before have left, and copies and path are as they were.
    for kind in 0..system.d.kinds {
        if 0 < state.left_of(kind) {
            let start = system.chart.start_at(128 * kind + c);
            let end = system.chart.start_at(128 * kind + c + 1);
            // The same of the rows of this kind before r.
            for r in start..end {
                if is_tried(wanted, state, covered, &s, kind, r) {
                    state.place_row(kind, r);
                    let more = covered.union(row::mask_at(system.work, r));
                    s = search(wanted, state, more, answers, s);
                    state.put_back(kind);
                    if s.further {
                        return s;
                    }
                }
            }
        }
    }
    s
}
