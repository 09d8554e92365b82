// A packing that a search has found, on the page.
ghost use Rattle.std.specs.Prelude.{◌≡◌, ◌*◌, ◌≤◌, length, take};
ghost use Rattle.definitions.specs.Emission.{emit};
ghost use Rattle.definitions.specs.Starts.{waits_at};
ghost use Rattle.rows.specs.Answering.{Held, answers_over, taken_in};
ghost use Rattle.rows.specs.RowSystems.{seen};
ghost use Rattle.kept.specs.Emission.{emit_kept, emitted_of};
ghost use Rattle.kept.specs.Wanted.{identified};
ghost use Rattle.kept.specs.Packings.{AreRows, Fillable};

use super::wanted::Wanted;
use super::{normal_form, sorting};
use definitions::Start;

// Where the rest of the page starts: behind the lent entry while that is waited for, else at the entry with this number among those to come; how many were
// written, and whether a further one is known.
// (The answers' bytes go beside it, with a clause that there is room: the caller lends them, and this is handed back by value, so no struct holds them.)
#[derive(Clone, Copy)]
pub struct Emission {
    pub start: Start,
    pub written: usize,
    pub further: bool,
}

impl Emission {
    // Whether the lent entry is still waited for.
    pub fn is_waiting(&self) -> bool
        ensures { result ≡ waits_at self.now.start }
    {
        matches!(self.start, Start::Behind)
    }
}

// The answer of the packing with these rows, which ascend: met or passed by, skipped, written behind those before it, or the further one.
fn emit_answer(wanted: &Wanted, rows: &[u16], answers: &mut [u8], e: Emission) -> Emission
    requires { let w = wanted.now in
        let s = w.system in
        Held s.d s.work.now s.chart.now rows.now × (w.capacity * (2 * s.d.places) ≤ length answers.old) }
    ensures { let w = wanted.now in
        let s = w.system in
        let taken = taken_in s.d s.work.now s.chart.now rows.now in
        let answer = answers_over taken (take s.d.places s.chart.now.scans) in
        let old = emitted_of e w.last.now answers.old in
        emitted_of result w.last.now answers.new ≡ emit w.capacity (record { answer = answer }) old }
{
    if e.further {
        return e;
    }
    match e.start {
        Start::Behind => {
            let met = wanted.system.is_answer(rows, wanted.last);
            let start = if met { Start::Entry(0) } else { Start::Behind };
            Emission { start, ..e }
        }
        Start::Entry(skip) if 0 < skip => Emission {
            start: Start::Entry(skip - 1),
            ..e
        },
        Start::Entry(_) if e.written < wanted.capacity => {
            let at = e.written * (2 * wanted.system.d.places);
            wanted.system.reconstruct_answer(rows, answers, at);
            Emission {
                written: e.written + 1,
                ..e
            }
        }
        Start::Entry(_) => Emission { further: true, ..e },
    }
}

// The packing with these rows, in any order: on the page if it is kept.
pub fn emit_kept(wanted: &Wanted, path: &[u16], answers: &mut [u8], e: Emission) -> Emission
    requires { let w = wanted.now in
        let s = w.system in
        AreRows s.d path.now × Fillable (seen s) path.now × (w.capacity * (2 * s.d.places) ≤ length answers.old) }
    ensures { let w = wanted.now in
        let old = emitted_of e w.last.now answers.old in
        emitted_of result w.last.now answers.new ≡ emit_kept (seen w.system) (identified w) w.capacity path.now old }
{
    let mut sorted = [0u16; 128];
    let rows = &mut sorted[..path.len()];
    sorting::sort_path(path, rows);
    if !normal_form::is_normal_form(wanted, rows) {
        return e;
    }
    emit_answer(wanted, rows, answers, e)
}
