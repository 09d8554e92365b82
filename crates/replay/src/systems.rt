// The refusal of a call, or its row system.
ghost use Rattle.std.specs.Prelude.{◌<◌};

use super::call::Call;
use rows::chart::Chart;
use rows::row;
use rows::row_system::RowSystem;
use solver::prepare;
use std::io;

// The first n pairs of a slice, in a line of that name. (Beside `show_numbers`: for one function the pairs would first be laid out flat.)
fn show_pairs(rt: &impl Print, name: &str, pairs: &[(u8, u8)], n: usize) -> io::Result<()> {
    print!(rt; "{name}")?;
    for (first, second) in pairs.iter().take(n) {
        print!(rt; " {first} {second}")?;
    }
    println!(rt)
}

// The first n numbers of a slice, in a line of that name. (A number and no subslice, here and above: what is shown stops at the slice's end by itself,
// and no size has to be within it.)
fn show_numbers(rt: &impl Print, name: &str, numbers: &[u8], n: usize) -> io::Result<()> {
    print!(rt; "{name}")?;
    for number in numbers.iter().take(n) {
        print!(rt; " {number}")?;
    }
    println!(rt)
}

// Where each of the maps takes the cells.
fn show_images(rt: &impl Print, images: &[u8], size: usize, maps: usize) -> io::Result<()> {
    for taken in images.chunks(128).take(maps) {
        show_numbers(rt, "map", taken, size)?;
    }
    Ok(())
}

// A row: its number, kind, p, j, cells.
fn show_row(rt: &impl Print, system: &RowSystem, r: usize) -> io::Result<()>
    requires { r < system.now.d.rows }
{
    let work = system.work;
    let kind = row::kind_at(work, r);
    let first = row::first_at(work, r);
    print!(rt; "row {r} {kind} {first} {}", work[8 * r + 4])?;
    let mask = row::mask_at(work, r);
    for c in 0..128 {
        if mask.has_cell(c) {
            print!(rt; " {c}")?;
        }
    }
    println!(rt)
}

// The first 12 rows, and the last.
fn show_rows(rt: &impl Print, system: &RowSystem) -> io::Result<()> {
    let n = system.d.rows;
    for r in 0..n.min(12) {
        show_row(rt, system, r)?;
    }
    if 12 < n {
        show_row(rt, system, n - 1)?;
    }
    Ok(())
}

// The sizes of a row system, and what stands in its slices.
fn show_system(rt: &impl Print, system: &RowSystem) -> io::Result<()> {
    let d = system.d;
    let chart = system.chart;
    print!(rt; "cells {} kinds {} rows {}", d.size, d.kinds, d.rows)?;
    println!(rt; " turns {} mirrorings {}", d.turns, d.mirrorings)?;
    // of each kind its copies and its mirror partner, of each piece its kind and its count
    let kinds = chart.kinds.map(|kind| (kind.copies, kind.partner));
    show_pairs(rt, "kinds", &kinds, d.kinds)?;
    let pieces = chart.pieces.map(|piece| (piece.kind, piece.count));
    show_pairs(rt, "pieces", &pieces, d.pieces)?;
    if d.size <= 30 {
        show_numbers(rt, "scan", &chart.scans, d.places)?;
        let maps = d.turns.saturating_add(d.mirrorings);
        show_images(rt, &chart.images, d.size, maps)?;
    }
    show_rows(rt, system)
}

// The refusal of a call, or its row system. A work slice of more than 8,200 words counts as one of 8,200.
pub(crate) fn show(rt: &impl Print, call: &Call) -> io::Result<()> {
    let mut words = [0; 8200];
    let work = &mut words[..call.words.min(8200)];
    let mut chart = Chart::empty();
    let prepared = prepare::prepare(
        &call.pieces,
        call.board,
        call.bytes,
        call.config,
        work.len(),
        call.links,
        work,
        &mut chart,
    );
    match prepared {
        Err(why) => println!(rt; "refused {}", why.number()),
        Ok(d) => {
            let system = RowSystem {
                d,
                work,
                chart: &chart,
            };
            show_system(rt, &system)
        }
    }
}
