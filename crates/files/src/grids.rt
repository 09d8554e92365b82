// Grids as they are written, and their cells put into lent bytes.
ghost use Rattle.std.specs.Prelude.{map, ◌≡◌, true, ◌||◌, ◌+◌, ◌-◌, ◌≤◌, eqb, length};
ghost use Rattle.std.proofs.Math.Seq.{paste};
ghost use Rattle.lists.specs.Lists.{all};
ghost use Rattle.definitions.specs.Files.{record_at};

use definitions::Record;

// A grid as it is written: three sides, and cells that are `0` or `1`.
#[derive(Clone, Copy)]
pub struct GridText<'a> {
    pub a: usize,
    pub b: usize,
    pub c: usize,
    pub cells: &'a [u8],
    pub ghost digits: { all (λ x. eqb x 48 || eqb x 49) cells.now ≡ true },
}

impl GridText<'_> {
    ghost use Rattle.files.specs.Lines.{written};

    // The record of such a grid, whose cells are lent from a place on.
    pub fn record(&self, count: u32, wood: u8, start: usize) -> Record
        ensures { result ≡ record_at start (written count wood self.now) }
    {
        Record {
            a: self.a,
            b: self.b,
            c: self.c,
            count,
            wood,
            start,
        }
    }

    // The cells as bytes 0 and 1, put from a place of a slice on; and the place behind them.
    // (Tried by `zip` over the part's `iter_mut`: what was written through it is not known to the proof.)
    pub fn put_cells(&self, cells: &mut [u8], at: usize) -> usize
        requires { at + length self.now.cells.now ≤ length cells.old }
        ensures { let bits = map (λ x. x - 48) self.now.cells.now in
            (result ≡ at + length self.now.cells.now) × (cells.new ≡ paste cells.old at bits (length self.now.cells.now)) }
    {
        // the first i cells stand there
        for (i, &byte) in self.cells.iter().enumerate() {
            cells[at + i] = byte - b'0';
        }
        at + self.cells.len()
    }
}
