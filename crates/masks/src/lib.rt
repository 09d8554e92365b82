// Sets of cells as two words, by numbers 0 to 127: a board's cells by their scan numbers, a box's by their places. Nothing is assumed; each function is a
// set operation on `has`. A number from 128 on is no cell and is in no set.
#![tactic(auto)]

ghost use Rattle.std.specs.Prelude.{◌≡◌, cond, not, ltb};
ghost use Rattle.masks.specs.Masks.{has, nothing, only, either, apart, FirstOpen, FirstIn};

#[derive(Clone, Copy, PartialEq, Eq)]
pub struct Mask {
    pub low: u64,
    pub high: u64,
}

impl Mask {
    pub fn empty() -> Mask
        ensures { has result ≡ nothing }
    {
        Mask { low: 0, high: 0 }
    }

    // With the cell n too, where it is one.
    pub fn with_cell(self, n: usize) -> Mask
        ensures { has result ≡ cond (ltb n 128) (either (has self) (only n)) (has self) }
    {
        if n < 64 {
            Mask {
                low: self.low | (1 << n),
                ..self
            }
        } else if n < 128 {
            Mask {
                high: self.high | (1 << (n - 64)),
                ..self
            }
        } else {
            self
        }
    }

    // The cells of either.
    pub fn union(self, other: Mask) -> Mask
        ensures { has result ≡ either (has self) (has other) }
    {
        Mask {
            low: self.low | other.low,
            high: self.high | other.high,
        }
    }

    // Whether some cell is in both.
    pub fn meets(self, other: Mask) -> bool
        ensures { result ≡ not (apart 128 (has self) (has other)) }
    {
        self.low & other.low != 0 || self.high & other.high != 0
    }

    pub fn has_cell(self, n: usize) -> bool
        ensures { result ≡ has self n }
    {
        if n < 64 {
            (self.low >> n) % 2 == 1
        } else if n < 128 {
            (self.high >> (n - 64)) % 2 == 1
        } else {
            false
        }
    }

    // The first cell from n on that is not in the set; 128 where all are, and where n is no cell. Callers compare the answer with the number of cells, and
    // 128, the place behind the last cell, takes part in that; an Option would be taken apart to the same number.
    pub fn next_open(self, n: usize) -> usize
        ensures { FirstOpen (has self) n result }
    {
        if n < 64 {
            let t = (!self.low >> n).trailing_zeros() as usize;
            if t < 64 - n {
                return n + t;
            }
            return 64 + (!self.high).trailing_zeros() as usize;
        }
        if 128 <= n {
            return 128;
        }
        let t = (!self.high >> (n - 64)).trailing_zeros() as usize;
        if t < 128 - n {
            return n + t;
        }
        128
    }

    // The first cell from n on that is in the set; 128, the place behind the last cell, where none is. (No Option: a walk from cell to cell goes on while
    // what it found is below 128, and an Option would be taken apart at each step to the same number.)
    pub fn next_cell(self, n: usize) -> usize
        ensures { FirstIn (has self) n result }
    {
        let others = Mask {
            low: !self.low,
            high: !self.high,
        };
        others.next_open(n)
    }
}
