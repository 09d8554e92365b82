// Refusal and preparation, once for every call: the table's tests in their order, and where none applies the row system, into a work slice and a chart.
ghost use Rattle.std.specs.Prelude.{◌≤◌, length, min};
ghost use Rattle.solver.specs.Preparing.{Prepares};
ghost use Rattle.placements.specs.Pieces.{records_of};

use definitions::{Config, Record, Refusal};
use placements::trays::LentTray;
use placements::{Pieces, counting, records, refusals, stripping};
use rows::chart::Chart;
use rows::{Dims, system};

// The first refusal that applies to a call to which so many words and links are lent, with nothing written; or how large the row system is, which then stands
// in a slice and a chart. The slice is the call's work slice, or memory in its place. (No struct of what is lent: the calls for C lend it one by one, and it
// would be taken apart at each call.)
pub fn prepare(
    pieces: &Pieces,
    board: Record,
    bytes: &[u8],
    config: Config,
    words: usize,
    links: usize,
    work: &mut [u64],
    chart: &mut Chart,
) -> Result<Dims, Refusal>
    requires { min words 8192 ≤ length work.old }
    ensures { Prepares result (records_of pieces.now) board bytes.now config words links work.old chart.old work.new chart.new }
{
    refusals::check_lent(pieces, board, bytes)?;
    refusals::check_config(config)?;
    refusals::check_slices(config, words, links)?;
    let lent = LentTray {
        pieces: *pieces,
        board,
        bytes,
    };
    let mut cells = [0; stripping::ROOM];
    let stripped = stripping::strip_tray(&lent, &mut cells);
    let counted = counting::count_tray(LentTray {
        pieces: stripped.pieces,
        board: stripped.board,
        bytes: &cells,
    });
    counting::check_counts(counted.counts, config)?;
    let sides = records::sides_of(board);
    Ok(system::build_system(&counted, sides, stripped.at, work, chart))
}
