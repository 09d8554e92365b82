// The text of a row system: how long it is, and the text itself.
ghost use Rattle.std.specs.Prelude.{◌≡◌, ltb, ◌≤◌, ◌<◌, length};
ghost use Rattle.definitions.specs.Outcomes.{over_start};
ghost use Rattle.rows.specs.Charts.{kind_copies};
ghost use Rattle.rows.specs.RowSystems.{seen};
ghost use Rattle.rows.specs.Rows.{row_at};
ghost use Rattle.dlx.specs.Texts.{text_by};

use super::lines;
use super::lines::LINE;
use rows::row;
use rows::row_system::RowSystem;

// Whether the kind of row r has copies: then the row is an option of the text.
fn has_copies(system: &RowSystem, r: usize) -> bool
    requires { r < system.now.d.rows }
    ensures { let s = system.now in result ≡ ltb 0 (kind_copies s.chart.now.kinds (row_at s.work.now r).kind) }
{
    0 < system.chart.copies_of(row::kind_at(system.work, r))
}

// How many bytes the text has.
pub fn measure(system: &RowSystem) -> usize
    requires { 1 ≤ system.now.d.size }
    ensures { result ≡ length (text_by (seen system.now)) }
{
    let mut line = [0; LINE];
    let mut length = lines::put_items(system, &mut line);
    // the lines of the rows before r are counted
    for r in 0..system.d.rows {
        if has_copies(system, r) {
            length += lines::put_option(system, r, &mut line);
        }
    }
    length
}

// The text, at the start of a slice.
pub fn write(system: &RowSystem, output: &mut [u8])
    requires { (1 ≤ system.now.d.size) × (length (text_by (seen system.now)) ≤ length output.old) }
    ensures { output.new ≡ over_start (text_by (seen system.now)) output.old }
{
    let mut line = [0; LINE];
    let n = lines::put_items(system, &mut line);
    let mut end = texts::put_bytes(output, 0, &line[..n]);
    // the lines of the rows before r are written, and `end` is the place behind them
    for r in 0..system.d.rows {
        if has_copies(system, r) {
            let n = lines::put_option(system, r, &mut line);
            end = texts::put_bytes(output, end, &line[..n]);
        }
    }
}
