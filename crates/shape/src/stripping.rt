// Grids without their empty outer layers.
ghost use Rattle.std.specs.Prelude.{◌≡◌, ◌+◌, ◌≤◌, ◌<◌, length};
ghost use Rattle.std.proofs.Math.Seq.{paste};
ghost use Rattle.definitions.specs.Grid.{volume};
ghost use Rattle.definitions.specs.Stripping.{corner, strip, FitsIn};
ghost use Rattle.shape.specs.Coords.{as_sides, as_cell};
ghost use Rattle.shape.specs.CubicGrids.{grid_of};
ghost use Rattle.shape.specs.Stripping.{part_of, StripsInto};

use super::{Coord, CubicGrid, cells};

// The box that a grid's filled cells span: where its corner lies, and its sides. A grid without filled cells keeps its box.
// (That a part lies in a box, `FitsIn`, stays a fact of contracts: it ties a window to sides that another owns.)
#[derive(Clone, Copy)]
pub struct Window {
    pub at: Coord,
    pub sides: Coord,
}

// A box that has a cell, from its corner to one past its last cell.
#[derive(Clone, Copy)]
struct Span {
    low: Coord,
    high: Coord,
    ghost some: { (low.0 < high.0) × (low.1 < high.1) × (low.2 < high.2) },
}

impl Span {
    ghost use Rattle.std.specs.Prelude.{◌≡◌, ◌+◌, ◌-◌, ◌<◌, min, max};
    ghost use Rattle.shape.specs.Coords.{as_sides, as_cell};
    ghost use Rattle.shape.specs.Stripping.{both, sides_between};

    // That of a cell.
    fn of(u: Coord) -> Span
        requires { (u.0 < 8) × (u.1 < 8) × (u.2 < 8) }
        ensures { (result.low ≡ u) × (as_cell result.high ≡ both (λ m n. n + 1) (as_cell u) (as_cell u)) }
    {
        Span {
            low: u,
            high: Coord(u.0 + 1, u.1 + 1, u.2 + 1),
        }
    }

    // The one that has another cell too.
    fn with(self, u: Coord) -> Span
        requires { (u.0 < 8) × (u.1 < 8) × (u.2 < 8) }
        ensures { (as_cell result.low ≡ both min (as_cell self.low) (as_cell u))
            × (as_cell result.high ≡ both (λ m n. max m (n + 1)) (as_cell self.high) (as_cell u)) }
    {
        let Coord(x, y, z) = self.low;
        let Coord(a, b, c) = self.high;
        Span {
            low: Coord(x.min(u.0), y.min(u.1), z.min(u.2)),
            high: Coord(a.max(u.0 + 1), b.max(u.1 + 1), c.max(u.2 + 1)),
        }
    }

    // Its corner and its sides.
    fn window(self) -> Window
        ensures { (result.at ≡ self.low) × (as_sides result.sides ≡ sides_between (as_cell self.low) (as_cell self.high)) }
    {
        let Coord(x, y, z) = self.low;
        let Coord(a, b, c) = self.high;
        Window {
            at: self.low,
            sides: Coord(a - x, b - y, c - z),
        }
    }
}

// Where a grid's box without its empty outer layers lies, and its sides.
fn window_of(grid: &CubicGrid) -> Window
    ensures { (as_cell result.at ≡ corner (grid_of grid.now)) × (as_sides result.sides ≡ (strip (grid_of grid.now)).sides) }
{
    let mut span: Option<Span> = None;
    // the span of the filled cells before place i
    for (i, &cell) in grid.cells.iter().enumerate() {
        if cell == 1 {
            let u = cells::cell_at(grid.sides, i);
            span = Some(match span {
                Some(span) => span.with(u),
                None => Span::of(u),
            });
        }
    }
    match span {
        Some(span) => span.window(),
        None => Window {
            at: Coord(0, 0, 0),
            sides: grid.sides,
        },
    }
}

// The cells of a part of a grid's box, into out from start on.
fn copy_part(grid: &CubicGrid, part: Window, out: &mut [u8], start: usize)
    requires { let g = grid_of grid.now in
        FitsIn (record { lent = g.sides; at = as_cell part.at }) (as_sides part.sides) × (start + volume (as_sides part.sides) ≤ length out.old) }
    ensures { out.new ≡ paste out.old start (part_of (grid_of grid.now) (as_cell part.at) (as_sides part.sides)) (volume (as_sides part.sides)) }
{
    // the bytes of the part's first j cells are written
    for j in 0..cells::volume_of_short(part.sides) {
        let u = cells::cell_at(part.sides, j);
        out[start + j] = grid.get(part.at.set_down(u));
    }
}

// The cells of a grid without its empty outer layers, into out from start on; and the box that they span.
pub fn strip_grid(grid: &CubicGrid, out: &mut [u8], start: usize) -> Window
    requires { start + volume (grid_of grid.now).sides ≤ length out.old }
    ensures { StripsInto (grid_of grid.now) result out.old start out.new }
{
    let part = window_of(grid);
    copy_part(grid, part, out, start);
    part
}
