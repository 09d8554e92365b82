// Kind 0 first (`use_pre_pruning`): a row of kind 0 that an allowed map takes onto one before it starts no packing that is kept.
ghost use Rattle.std.specs.Prelude.{◌&&◌, ◌||◌, not, [], ◌≡◌, ◌+◌, ◌*◌, ◌-◌, ◌≤◌, ◌<◌, ltb, get_or, length};
ghost use Rattle.lists.specs.Lists.{any, from};
ghost use Rattle.definitions.specs.Emission.{emits};
ghost use Rattle.definitions.specs.Starts.{waits_at};
ghost use Rattle.rows.specs.Rows.{row_at};
ghost use Rattle.rows.specs.RowSystems.{images_under, is_mirroring, seen};
ghost use Rattle.rows.specs.Shown.{shows_row};
ghost use Rattle.rows.specs.Systems.{owned_in};
ghost use Rattle.kept.specs.Emission.{emitted_of};
ghost use Rattle.kept.specs.Wanted.{identified};
ghost use Rattle.kept.specs.Normal.{image_of};
ghost use Rattle.fast.specs.Searching.{Searching, state_by};
ghost use Rattle.fast.specs.Pruned.{always_mirrorable_by, fast_first, pruned_by};

use super::search;
use super::state::State;
use kept::emission::Emission;
use kept::wanted::Wanted;
use rows::row;
use rows::row_system::RowSystem;

// Whether one of the maps numbered from `start` to below `end` takes row r onto a row before it.
fn moves_before(system: &RowSystem, start: usize, end: usize, r: usize) -> bool
    requires { let d = system.now.d in (start ≤ end) × (end ≤ d.turns + d.mirrorings) × (r < d.rows) }
    ensures { let s = system.now in
        result ≡ any (λ m. ltb (image_of (seen s) (is_mirroring s m) (images_under s m) r) r) (from start (end - start)) }
{
    // no map before m does
    for m in start..end {
        if system.image_row(m, r) < r {
            return true;
        }
    }
    false
}

// Whether each kind has a mirror partner with as many copies.
fn always_mirrorable(system: &RowSystem) -> bool
    ensures { result ≡ always_mirrorable_by (seen system.now) }
{
    // each kind before k has
    for k in 0..system.d.kinds {
        let p = system.chart.partner_of(k);
        if system.d.kinds <= p {
            return false;
        }
        if system.chart.copies_of(k) != system.chart.copies_of(p) {
            return false;
        }
    }
    true
}

// Whether row r, of kind 0, starts no packing that is kept.
fn is_pruned(wanted: &Wanted, r: usize) -> bool
    requires { r < wanted.now.system.d.rows }
    ensures { let w = wanted.now in result ≡ pruned_by (seen w.system) (identified w) r }
{
    if !wanted.turned {
        return false;
    }
    let system = &wanted.system;
    if moves_before(system, 0, system.d.turns, r) {
        return true;
    }
    if !wanted.mirrored {
        return false;
    }
    if !always_mirrorable(system) {
        return false;
    }
    if system.kind_after(true, 0) != 0 {
        return false;
    }
    let turns = system.d.turns;
    moves_before(system, turns, turns + system.d.mirrorings, r)
}

// Whether row r, of kind 0, is tried: it is not pruned, and while an answer is waited for the answer shows it.
fn is_first(wanted: &Wanted, e: &Emission, r: usize) -> bool
    requires { r < wanted.now.system.d.rows }
    ensures { let w = wanted.now in
        let s = w.system in
        let shows = shows_row (owned_in s.chart.now.pieces s.d.pieces) w.shown (row_at s.work.now r) in
        result ≡ not (pruned_by (seen s) (identified w) r) && (not (waits_at e.now.start) || shows) }
{
    !is_pruned(wanted, r) && wanted.system.leads(wanted.shown_while(e), r)
}

// The packings that start with a row of kind 0, row by row, from the state with nothing chosen.
pub fn search_first(wanted: &Wanted, state: &mut State, answers: &mut [u8], e: Emission) -> Emission
    requires ready { let w = wanted.now in
        (w.capacity * (2 * w.system.d.places) ≤ length answers.old)
        × (0 < get_or state.old.left 0 0) × (state.old.path ≡ []) }
    requires searching { Searching (seen wanted.now.system) state.old.left (record { low = 0; high = 0 }) [] }
    ensures page { let w = wanted.now in
        let S = seen w.system in
        let t = state_by S state.old.left (record { low = 0; high = 0 }) [] in
        let old = emitted_of e w.last.now answers.old in
        emitted_of result w.last.now answers.new ≡ emits w.capacity (fast_first S (identified w) t) old }
    ensures restored { (state.new.left ≡ state.old.left) × (state.new.path ≡ []) }
{
    let system = &wanted.system;
    let mut s = e;
    // The rows of kind 0, which come first: s is what those passed have left, and the copies are as they were.
    for r in 0..system.d.rows {
        if 0 < row::kind_at(system.work, r) {
            return s;
        }
        if is_first(wanted, &s, r) {
            state.place_row(0, r);
            let mask = row::mask_at(system.work, r);
            s = search::search(wanted, state, mask, answers, s);
            state.put_back(0);
            if s.further {
                return s;
            }
        }
    }
    s
}
