// Poses: the variants of a piece as the fit test reads them, each by the codes of its filled cells and of its origin.
ghost use Rattle.std.specs.Prelude.{◌≡◌, map, ◌+◌, ◌*◌, ◌≤◌, ◌<◌, length, take, get_or};
ghost use Rattle.std.proofs.Math.Seq.{paste};
ghost use Rattle.lists.specs.Lists.{sort};
ghost use Rattle.definitions.specs.Grid.{volume, filled_cells};
ghost use Rattle.definitions.specs.Maps.{map_of, map_grid};
ghost use Rattle.definitions.specs.Scan.{cell_ahead};
ghost use Rattle.definitions.specs.Placements.{origin};
ghost use Rattle.shape.specs.Coords.{as_sides, as_cell, ShortSides};
ghost use Rattle.shape.specs.CubicGrids.{grid_of};
ghost use Rattle.shape.specs.Grids.{as_grid};
ghost use Rattle.shape.specs.Orders.{axis_list};
ghost use Rattle.shape.specs.Variants.{turned_by};
ghost use Rattle.placements.specs.Poses.{code_of, cell_of, origin_in, with_pose, with_poses, empty_poses, PoseOf, Posed};

use shape::maps::Map;
use shape::{Axis, Coord, CubicGrid, cells, scan};

// A variant of a piece: how many filled cells it has, the codes of these, x slowest, z fastest (what lies behind them says nothing), and that of its
// origin. Of fixed length, with a count beside it, since nothing is put on a heap.
#[derive(Clone, Copy)]
pub struct Pose {
    pub size: usize,
    pub codes: [u16; 512],
    pub origin: u16,
}

// The variants of a piece, at most 24, and how many they are (what lies behind them says nothing). Of fixed length, as a pose is.
#[derive(Drop)]
pub struct Poses {
    pub count: usize,
    pub list: [Pose; 24],
}

// The cell with a code. (No `From`: it could stand in `shape` alone, which knows no codes. No type for codes: any 16 bits are one.)
#[tactic(auto, unfolding(crate::specs::Poses::cell_of))]
fn cell_of(code: u16) -> Coord
    ensures { (as_cell result ≡ cell_of code) × (result.0 ≤ 1023) × (result.1 ≤ 7) × (result.2 ≤ 7) }
{
    let n = code as usize;
    Coord(n / 64, n / 8 % 8, n % 8)
}

// The code of a cell whose coordinates are below 8. (No `From`: it cannot ask that they are.)
#[tactic(auto, unfolding(crate::specs::Poses::code_of))]
fn code_of(u: Coord) -> u16
    requires { (u.0 < 8) × (u.1 < 8) × (u.2 < 8) }
    ensures { result ≡ code_of (as_cell u) }
{
    (64 * u.0 + 8 * u.1 + u.2) as u16
}

// The codes of a grid's filled cells, x slowest, z fastest, to the front of a slice; and how many they are.
fn list_filled(cells: &[u8], s: Coord, codes: &mut [u16]) -> usize
    requires { ShortSides (as_sides s) × (volume (as_sides s) ≤ length cells.now) × (volume (as_sides s) ≤ length codes.old) }
    ensures { let us = filled_cells (as_grid s cells.now) in
        (result ≡ length us) × (codes.new ≡ paste codes.old 0 (map code_of us) result) }
{
    let mut u = Coord(0, 0, 0);
    let mut n = 0;
    let v = cells::volume_of(s);
    // u is the cell that comes next, and the codes of the filled cells before it stand there
    for &cell in &cells[..v] {
        if cell == 1 {
            codes[n] = code_of(u);
            n += 1;
        }
        u = cells::next_cell(s, u);
    }
    n
}

// The code of the first of cells whose codes are listed, by their coordinates along three axes, whichever axes they are; 0 where there are none.
// (No Option: so is `origin` defined.)
fn first_of(codes: &[u16], first: Axis, second: Axis, third: Axis) -> u16
    ensures { cell_of result ≡ origin (sort (cell_ahead (axis_list first second third)) (map cell_of codes.now)) }
{
    let Some((&last, before)) = codes.split_last() else {
        return 0;
    };
    let mut ahead = last;
    // the first of the cells behind cell k
    for k in (0..before.len()).rev() {
        let code = before[k];
        if scan::compare_along(first, second, third, cell_of(code), cell_of(ahead)).is_lt() {
            ahead = code;
        }
    }
    ahead
}

impl Pose {
    // Filled cell k.
    pub fn cell_at(&self, k: usize) -> Coord
        requires { k < 512 }
        ensures { (as_cell result ≡ cell_of (get_or self.now.codes k 0)) × (result.0 ≤ 1023) × (result.1 ≤ 7) × (result.2 ≤ 7) }
    {
        cell_of(self.codes[k])
    }

    // The origin.
    #[tactic(auto, unfolding(crate::specs::Poses::origin_in))]
    pub fn origin(&self) -> Coord
        ensures { (as_cell result ≡ origin_in self.now) × (result.0 ≤ 1023) × (result.1 ≤ 7) × (result.2 ≤ 7) }
    {
        cell_of(self.origin)
    }

    // The pose becomes that of a grid. What lies behind its codes stays.
    fn put(&mut self, cells: &[u8], s: Coord, first: Axis, second: Axis, third: Axis)
        requires { ShortSides (as_sides s) × (volume (as_sides s) ≤ length cells.now) }
        ensures { let g = as_grid s cells.now in
            let order = axis_list first second third in
            PoseOf order g self.new × (self.new ≡ with_pose order (filled_cells g) self.old) }
    {
        self.size = list_filled(cells, s, &mut self.codes);
        self.origin = first_of(&self.codes[..self.size], first, second, third);
    }
}

impl Poses {
    // No variants.
    #[inline]
    pub fn new() -> Poses
        ensures { result ≡ empty_poses }
    {
        Poses {
            count: 0,
            list: [Pose {
                size: 0,
                codes: [0; 512],
                origin: 0,
            }; 24],
        }
    }

    // The variants.
    pub fn as_slice(&self) -> &[Pose]
        requires { self.now.count ≤ 24 }
        ensures { result.now ≡ take self.now.count self.now.list }
    {
        &self.list[..self.count]
    }

    // The grids that map numbers make of a grid become the poses, with their first cells along three axes, whichever axes they are, as origins. What lies
    // behind their codes stays.
    pub fn pose_all(
        &mut self,
        grid: &CubicGrid,
        turnings: &[u8],
        first: Axis,
        second: Axis,
        third: Axis,
    )
        requires { length turnings.now ≤ 24 }
        ensures { let g = grid_of grid.now in
            let ks = turnings.now in
            let order = axis_list first second third in
            let posed = with_poses order (λ i. filled_cells (map_grid (map_of (get_or ks i 0)) g)) (length ks) self.old in
            Posed order (turned_by g ks) self.new × (self.new ≡ record posed { count = length ks }) }
    {
        let mut turned = [0u8; 512];
        // the grids of the numbers before i stand there
        for (i, &number) in turnings.iter().enumerate() {
            let m = Map(number);
            grid.turn_into(m, &mut turned, 0);
            self.list[i].put(&turned, m.sides(grid.sides), first, second, third);
        }
        self.count = turnings.len();
    }
}
