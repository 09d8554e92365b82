// Reads cases of the fit test from standard input, a line each: a board, a grid, the number of the map that turns it, and a cell of the board's box. It prints
// for each that the turned grid fits with its origin at the cell, or the cell of it at which the test stopped. The stored cases and what is printed for them
// are a table made by hand, in oracle/fits.py; that file also holds a built show_fits to a model on random cases.
#![tactic(auto)]

ghost use Rattle.std.specs.Prelude.{◌≤◌};

use files::fields;
use placements::fitting;
use placements::fitting::Fit;
use placements::poses::Poses;
use shape::maps::Map;
use shape::{Coord, CubicGrid, cells, scan};
use std::io;
use std::io::Read;

// The number in field n of a line; none where it is not one digit or two.
fn number_in(line: &[u8], n: usize) -> Option<usize> {
    fields::number_in(fields::field(line, n), 2)
}

// Three numbers, from field n of a line on.
fn coord_in(line: &[u8], n: usize) -> Option<Coord>
    requires { n ≤ 9 }
{
    Some(Coord(
        number_in(line, n)?,
        number_in(line, n + 1)?,
        number_in(line, n + 2)?,
    ))
}

// A grid, from field n of a line on: its sides and, as a digit each, its cells, which are put into bytes; none where they make none. (What is no `1` is taken
// for a cell that is not filled, and a digit behind the 512th for none.)
fn grid_in<'a>(line: &[u8], n: usize, bytes: &'a mut [u8; 512]) -> Option<CubicGrid<'a>>
    requires { n ≤ 4 }
{
    let sides = coord_in(line, n)?;
    let digits = fields::field(line, n + 3);
    let count = digits.len().min(512);
    // the first i digits stand there as bytes
    for i in 0..count {
        bytes[i] = (digits[i] == b'1') as u8;
    }
    CubicGrid::new(&bytes[..count], sides)
}

// The answer in a case; none where a line is none, or its cell no cell of the board's box.
fn answer_to(line: &[u8]) -> Option<Fit> {
    let mut board_bytes = [0; 512];
    let mut bytes = [0; 512];
    let board = grid_in(line, 0, &mut board_bytes)?;
    let grid = grid_in(line, 4, &mut bytes)?;
    let m = Map(u8::try_from(number_in(line, 8)?).ok()?);
    let at = coord_in(line, 9)?;
    if !cells::in_box(board.sides, at) {
        return None;
    }
    let order = scan::plan_axis_order(board.sides);
    let mut poses = Poses::new();
    poses.pose_all(&grid, &[m.0], order.first, order.second, order.third);
    Some(fitting::test_fit(&board, &poses.list[0], at))
}

// A case's answer, a line.
fn show_case(rt: &impl Print, line: &[u8]) -> io::Result<()> {
    match answer_to(line) {
        None => println!(rt; "no case"),
        Some(Fit::Fits) => println!(rt; "fits"),
        Some(Fit::StopsAt(u)) => println!(rt; "stops at {} {} {}", u.0, u.1, u.2),
    }
}

// All cases of a text.
fn show_cases(rt: &impl Print, text: &[u8]) -> io::Result<()> {
    for line in text.split(|&byte| byte == b'\n') {
        if !line.is_empty() {
            show_case(rt, line)?;
        }
    }
    Ok(())
}

// Nothing is shown of an input that cannot be read; a write that fails ends it, and changes no status. (On the heap, unlike `pack`: a program of the gate.)
fn main(rt: HostRuntime) {
    let mut text = Vec::new(rt.alloc());
    if rt.reader().read_to_end(&mut text).is_ok() {
        let _ = show_cases(&rt, &text);
    }
}
