// The call that writes the text for DLX1, over pieces by value.
ghost use Rattle.std.specs.Prelude.{◌≡◌, ◌≤◌, ltb, map};
ghost use Rattle.lists.specs.Lists.{any, below};
ghost use Rattle.definitions.specs.TextCalls.{MeetsTextDemand, TextDemand, plain_fast, text_outcome, text_outcome_of};
ghost use Rattle.placements.specs.Pieces.{records_of};
ghost use Rattle.rows.specs.Charts.{kind_copies};
ghost use Rattle.rows.specs.RowSystems.{seen};
ghost use Rattle.dlx.specs.Texts.{Checked, has_no_text, text_call};

use super::text;
use definitions::{Config, Record, Refusal, SolverKind};
use placements::Pieces;
use rows::chart::{Chart, Kind};
use rows::row_system::RowSystem;
use solver::{clearing, prepare};

// The call takes no engine and no identification: it is refused as a listing by Fast is, with nothing identified.
fn plain_fast() -> Config
    ensures { result ≡ plain_fast }
{
    Config {
        identify_transformed_answers: false,
        identify_mirrored_answers: false,
        solver: SolverKind::Fast,
    }
}

// Whether one of the first n kinds has more than one copy.
fn has_kind_twice(kinds: &[Kind; 16], n: usize) -> bool
    requires { n ≤ 16 }
    ensures { result ≡ any (ltb 1) (map (kind_copies kinds.now) (below n)) }
{
    kinds[..n].iter().any(|kind| 1 < kind.copies)
}

// Whether a tray has no text for DLX1: it would have no primary item, or an item to be taken more than once.
fn has_no_text(system: &RowSystem) -> bool
    ensures { result ≡ has_no_text (seen system.now) }
{
    system.d.size == 0 || has_kind_twice(&system.chart.kinds, system.d.kinds)
}

// How long the text is; or 17; or 18, where so much room is too little.
fn check_text(system: &RowSystem, room: usize) -> Result<usize, Refusal>
    ensures { Checked result (seen system.now) room }
{
    if has_no_text(system) {
        return Err(Refusal::NoText);
    }
    let length = text::measure(system);
    if room < length {
        return Err(Refusal::OutputTooShort);
    }
    Ok(length)
}

// A call, whatever is lent: how many bytes of the text were written, or the first refusal that applies. The rows stand in memory of the call's own until it is
// known that nothing refuses it: the lent work slice is only cleared. (`texts` is a law: whatever is lent, the outcome is what is demanded of the text.)
pub fn text(
    pieces: &Pieces,
    board: Record,
    bytes: &[u8],
    output: &mut [u8],
    work: &mut [u64],
) -> Result<usize, Refusal>
    ensures outcome { text_outcome_of result output.new work.new ≡ text_outcome (text_call (records_of pieces.now) board bytes.now output.old work.old) }
    ensures demand { TextDemand (text_call (records_of pieces.now) board bytes.now output.old work.old) (text_outcome_of result output.new work.new) }
    ensures texts { MeetsTextDemand text_outcome }
{
    let mut rows = [0u64; 8192];
    let mut chart = Chart::empty();
    let d = prepare::prepare(
        pieces,
        board,
        bytes,
        plain_fast(),
        work.len(),
        0,
        &mut rows,
        &mut chart,
    )?;
    let system = RowSystem {
        d,
        work: &rows,
        chart: &chart,
    };
    let length = check_text(&system, output.len())?;
    text::write(&system, output);
    clearing::clear_work(work);
    Ok(length)
}
