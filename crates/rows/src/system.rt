// A tray's row system, whole.
ghost use Rattle.std.specs.Prelude.{◌≡◌, ◌≤◌, length};
ghost use Rattle.definitions.specs.Placements.{compile};
ghost use Rattle.definitions.specs.Refusals.{sides_of};
ghost use Rattle.definitions.specs.Stripping.{FitsIn};
ghost use Rattle.shape.specs.Coords.{ShortSides, as_sides};
ghost use Rattle.placements.specs.Pieces.{framed_in, records_of};
ghost use Rattle.placements.specs.Trays.{lent_tray};
ghost use Rattle.rows.specs.Built.{BuiltLent, BuiltSystem, frame_at};
ghost use Rattle.rows.specs.Rows.{RowsFit};
ghost use Rattle.rows.specs.Systems.{KindsIn, owned, owned_in};

use super::board::NumberedBoard;
use super::chart::{Chart, Kind, Owned};
use super::{Dims, building, images};
use placements::counted::CountedTray;
use placements::planned::PlannedBoard;
use placements::trays::LentTray;
use placements::{board, merging, records};
use shape::maps::Map;
use shape::{Coord, cells, grids, variants};

// For each kind its copies, its mirror partner and how many cells it has.
fn list_kinds(counted: &CountedTray, kinds: &mut [Kind; 16])
    ensures { let c = counted.now in KindsIn kinds.new c.counts.kinds (compile (lent_tray c.tray)) }
{
    // the kinds before k stand there
    for (k, &first) in counted.kinds().iter().enumerate() {
        let i = first as usize;
        let piece = counted.tray.piece_grid(i);
        let m = variants::smallest_of(&piece, merging::MIRROR);
        kinds[k] = Kind {
            copies: counted.copies_of(i) as u8,
            partner: counted.kind_of(i, m) as u8,
            size: grids::count_filled(piece.cells) as u16,
        };
    }
}

// How many pieces a tray has: as many as records.
#[tactic(auto, using(placements::proofs::RefusalLaws::records_count))]
fn count_pieces(tray: &LentTray) -> usize
    ensures { (result ≡ tray.now.pieces.count) × (length (records_of tray.now.pieces) ≡ result) }
{
    tray.pieces.count
}

// For each piece its kind and its count.
fn list_pieces(counted: &CountedTray, pieces: &mut [Owned; 16])
    ensures { let t = counted.now.tray in owned_in pieces.new t.pieces.count ≡ owned (lent_tray t) }
{
    // the kinds and the counts of the pieces before i stand there
    for i in 0..count_pieces(&counted.tray) {
        pieces[i] = Owned {
            kind: counted.kind_of(i, Map(counted.small[i])) as u8,
            count: counted.tray.pieces.get(i).count as u8,
        };
    }
}

// How many rows, allowed turns and allowed mirrorings there are.
#[derive(Clone, Copy)]
struct Placed {
    rows: usize,
    turns: usize,
    mirrorings: usize,
}

// The rows of a tray, where those of each kind at each cell begin, and the images of its board's cells, by what was counted of it.
fn build_lent(
    counted: &CountedTray,
    work: &mut [u64],
    starts: &mut [u16; 2049],
    images: &mut [u8; 6144],
) -> Placed
    requires counted { let c = counted.now in (c.counts.placements ≤ 1024) × RowsFit (compile (lent_tray c.tray)) }
    requires room { 8192 ≤ length work.old }
    ensures { let c = counted.now in
        BuiltLent (compile (lent_tray c.tray)) c.counts.size result work.old work.new starts.new images.new }
{
    let mut scans = [0u8; 512];
    board::number_places(counted.places(), &mut scans);
    let grid = counted.tray.board_grid();
    let planned = PlannedBoard {
        grid,
        order: counted.tray.order(),
        places: counted.places(),
    };
    let board = NumberedBoard { planned, scans };
    let turns = images::board_images(&board, 0, 24, images, 0);
    let maps = images::board_images(&board, 24, 48, images, turns);
    let rows = building::build_rows(&board, counted, work);
    building::range_rows(work, rows, starts);
    Placed {
        rows,
        turns,
        mirrorings: maps - turns,
    }
}

// The row system of a tray whose grids are stripped and that is not refused, by what was counted of it, into work slice and chart; and how large it is. Its
// board lies in the lent box, in which answers are written, with its corner at a cell.
pub fn build_system(
    counted: &CountedTray,
    lent: Coord,
    at: Coord,
    work: &mut [u64],
    chart: &mut Chart,
) -> Dims
    requires counted { let c = counted.now in (c.counts.placements ≤ 1024) × RowsFit (compile (lent_tray c.tray)) }
    requires fit { ShortSides (as_sides lent) × FitsIn (frame_at lent at) (sides_of counted.now.tray.board) }
    requires room { 8192 ≤ length work.old }
    ensures { let t = counted.now.tray in
        let tray = framed_in (records_of t.pieces) t.board t.bytes.now (frame_at lent at) in
        BuiltSystem tray result work.old work.new chart.new }
{
    let placed = build_lent(counted, work, &mut chart.starts, &mut chart.images);
    list_kinds(counted, &mut chart.kinds);
    list_pieces(counted, &mut chart.pieces);
    let size = counted.counts.size;
    let mut places = counted.places;
    let put = &mut places[..size];
    board::put_back(put, records::sides_of(counted.tray.board), at, lent);
    board::number_places(put, &mut chart.scans);
    Dims {
        size,
        rows: placed.rows,
        kinds: counted.counts.kinds,
        turns: placed.turns,
        mirrorings: placed.mirrorings,
        places: cells::volume_of(lent),
        pieces: counted.tray.pieces.count,
    }
}
