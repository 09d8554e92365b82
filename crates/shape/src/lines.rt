// A turned box, line by line: its cells along an axis lie in the box that was turned with a step between them.
ghost use Rattle.std.specs.Prelude.{◌≤◌};

use super::{Axis, Coord};

// At most 8 cells with a step of at most 64 between them, counted from the other end where the flip is set.
#[derive(Clone, Copy)]
pub(crate) struct Line {
    pub flip: bool,
    pub n: usize,
    pub step: usize,
    ghost few: { n ≤ 8 },
    ghost near: { step ≤ 64 },
}

impl Line {
    ghost use Rattle.std.specs.Prelude.{◌≡◌, ◌+◌, ◌*◌, ◌<◌, ◌≤◌, length};
    ghost use Rattle.std.proofs.Math.Seq.{paste};
    ghost use Rattle.shape.specs.Coords.{as_sides, axis_number, flip_number, ShortSides};
    ghost use Rattle.shape.specs.Lines.{stride_of, RunsAlong, step_to, line_of, layer_of, LineIn, LayerIn};

    // What a step along an axis adds to a place.
    #[tactic(auto, using(crate::proofs::PlaceLaws::two_sides), unfolding(crate::specs::Lines::stride_of))]
    fn stride(axis: Axis, s: Coord) -> usize
        requires { ShortSides (as_sides s) }
        ensures { (result ≡ stride_of (as_sides s) (axis_number axis)) × (result ≤ 64) }
    {
        match axis {
            Axis::X => s.1 * s.2,
            Axis::Y => s.2,
            Axis::Z => 1,
        }
    }

    // The line that runs along an axis of a box.
    pub(crate) fn along(axis: Axis, flip: bool, s: Coord) -> Line
        requires { ShortSides (as_sides s) }
        ensures { RunsAlong result (as_sides s) (axis_number axis) (flip_number flip) }
    {
        Line {
            flip,
            n: s.pick(axis),
            step: Line::stride(axis, s),
        }
    }

    // How far cell i lies from the line's place.
    #[tactic(auto, using(crate::proofs::LineLaws::step_small), unfolding(crate::specs::Lines::step_to, definitions::specs::Maps::from_end))]
    pub(crate) fn step_to(self, i: usize) -> usize
        requires { i < self.n }
        ensures { (result ≡ step_to self i) × (result ≤ 512) }
    {
        if self.flip {
            (self.n - 1 - i) * self.step
        } else {
            i * self.step
        }
    }

    // The cells of the line from a place on, into a slice.
    fn turn_line(self, cells: &[u8], start: usize, out: &mut [u8], at: usize)
        requires { LineIn (length cells.now) start self × (at + self.n ≤ length out.old) }
        ensures { out.new ≡ paste out.old at (line_of cells.now start self) self.n }
    {
        // the first k cells are written
        for k in 0..self.n {
            out[at + k] = cells[start + self.step_to(k)];
        }
    }

    // The cells of the lines z along this line, into a slice.
    pub(crate) fn turn_layer(self, z: Line, cells: &[u8], start: usize, out: &mut [u8], at: usize)
        requires { (start ≤ 512) × LayerIn (length cells.now) start self z × (at + self.n * z.n ≤ length out.old) }
        ensures { out.new ≡ paste out.old at (layer_of cells.now start self z) (self.n * z.n) }
    {
        // the cells of the first j lines are written
        for j in 0..self.n {
            z.turn_line(cells, start + self.step_to(j), out, at + j * z.n);
        }
    }
}
