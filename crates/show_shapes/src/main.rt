// Prints what the crate shape makes of some grids: turned and mirrored grids, variants with their origins, symmetries, scan order,
// and how the grids compare by their smallest turned grids. The stored output is the original's (oracle, `shapes`).
#![tactic(auto)]

use shape::maps::Map;
use shape::{AxisOrder, Coord, CubicGrid, grids, scan, variants};
use std::cmp::Ordering;
use std::io;

// Three numbers, each behind a blank. (No Display of Coord: the text is this program's alone.)
fn show_coord(rt: &impl Print, s: Coord) -> io::Result<()> {
    print!(rt; " {} {} {}", s.0, s.1, s.2)
}

// A turned grid: sides, then cells.
fn show_turned(rt: &impl Print, grid: &CubicGrid, m: Map) -> io::Result<()> {
    show_coord(rt, m.sides(grid.sides))?;
    print!(rt; " ")?;
    for j in 0..grid.cells.len() {
        let cell = grids::turned_byte(grid.cells, grid.sides, m, j);
        print!(rt; "{cell}")?;
    }
    println!(rt)
}

fn show_maps(rt: &impl Print, grid: &CubicGrid) -> io::Result<()> {
    for m in 0..48 {
        print!(rt; "map {m}")?;
        show_turned(rt, grid, Map(m))?;
    }
    Ok(())
}

fn show_variants(rt: &impl Print, grid: &CubicGrid, order: AxisOrder) -> io::Result<()> {
    let mut turned = [[0; 512]; 24];
    variants::turn_all(grid, &mut turned);
    let mut turnings = [0; 24];
    let n = variants::variants_of(grid, &turned, &mut turnings);
    for &m in &turnings[..n] {
        print!(rt; "variant")?;
        show_coord(rt, scan::origin_of(grid, Map(m), order))?;
        show_turned(rt, grid, Map(m))?;
    }
    Ok(())
}

fn show_symmetries(rt: &impl Print, grid: &CubicGrid) -> io::Result<()> {
    print!(rt; "symmetries")?;
    for m in 0..48 {
        if grids::keeps(grid.cells, grid.sides, Map(m)) {
            print!(rt; " {m}")?;
        }
    }
    println!(rt)
}

fn show_scan(rt: &impl Print, grid: &CubicGrid, order: AxisOrder) -> io::Result<()> {
    let mut places = [0; 512];
    let n = scan::plan_coords(grid, order, &mut places);
    print!(rt; "scan")?;
    for place in &places[..n] {
        print!(rt; " {place}")?;
    }
    println!(rt)
}

// All of a grid; nothing where the cells do not make one.
fn show(rt: &impl Print, cells: &[u8], sides: Coord) -> io::Result<()> {
    let Some(grid) = CubicGrid::new(cells, sides) else {
        return Ok(());
    };
    let order = scan::plan_axis_order(sides);
    show_maps(rt, &grid)?;
    show_variants(rt, &grid, order)?;
    show_symmetries(rt, &grid)?;
    show_scan(rt, &grid, order)
}

// An order in a word. (By hand: std's Ordering takes no Display of ours.)
fn name_of(order: Ordering) -> &'static str {
    match order {
        Ordering::Less => "less",
        Ordering::Equal => "equal",
        Ordering::Greater => "greater",
    }
}

// Two grids by their smallest turned grids, then the first's mirror image and the second; nothing where one of them is none.
fn compare(
    rt: &impl Print,
    cells: &[u8],
    sides: Coord,
    others: &[u8],
    other_sides: Coord,
) -> io::Result<()> {
    let Some(grid) = CubicGrid::new(cells, sides) else {
        return Ok(());
    };
    let Some(other) = CubicGrid::new(others, other_sides) else {
        return Ok(());
    };
    let order = name_of(variants::compare_smallest(&grid, Map(0), &other, Map(0)));
    let mirrored = name_of(variants::compare_smallest(&grid, Map(26), &other, Map(0)));
    println!(rt; "kinds {order} {mirrored}")
}

// All grids and pairs.
fn show_all(rt: &impl Print) -> io::Result<()> {
    let one = [1];
    let domino = [1, 1];
    let corner = [1, 1, 1, 0];
    let handed = [1, 1, 1, 0, 0, 1, 0, 0];
    let partner = [1, 1, 1, 0, 0, 0, 1, 0];
    let apart = [1, 0, 1];
    let hollow = [1, 1, 1, 1, 0, 1, 1, 1, 1];
    let row = [1, 1, 1, 0];
    let mixed = [
        1, 1, 0, 1, 0, 0, 1, 0, 0, 0, 1, 0, 0, 1, 0, 0, 1, 0, 0, 0, 0, 0, 0, 1,
    ];
    let cube = Coord(2, 2, 2);
    show(rt, &one, Coord(1, 1, 1))?;
    show(rt, &domino, Coord(1, 1, 2))?;
    show(rt, &corner, Coord(1, 2, 2))?;
    show(rt, &handed, cube)?;
    show(rt, &partner, cube)?;
    show(rt, &apart, Coord(1, 1, 3))?;
    show(rt, &hollow, Coord(1, 3, 3))?;
    show(rt, &row, Coord(1, 1, 4))?;
    show(rt, &mixed, Coord(2, 3, 4))?;
    compare(rt, &one, Coord(1, 1, 1), &domino, Coord(1, 1, 2))?;
    compare(rt, &domino, Coord(1, 1, 2), &domino, Coord(2, 1, 1))?;
    compare(rt, &corner, Coord(1, 2, 2), &corner, Coord(2, 2, 1))?;
    compare(rt, &handed, cube, &partner, cube)?;
    compare(rt, &partner, cube, &handed, cube)?;
    compare(rt, &handed, cube, &handed, cube)?;
    compare(rt, &hollow, Coord(1, 3, 3), &hollow, Coord(3, 1, 3))?;
    compare(rt, &apart, Coord(1, 1, 3), &row, Coord(1, 1, 4))?;
    compare(rt, &mixed, Coord(2, 3, 4), &mixed, Coord(4, 3, 2))
}

// A write that fails ends it, and changes no status.
fn main(rt: HostRuntime) {
    let _ = show_all(&rt);
}
