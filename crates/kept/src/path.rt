// The rows that a search has chosen, in order. Contracts see the list of their numbers. (A number beside an array: nothing is put on a heap.)
ghost use Rattle.std.specs.Prelude.{[], ◌∷◌, ◌++◌, ◌≡◌, List, ℕ, ◌≤◌, ◌<◌, length, take};

use std::marker::Model;

#[derive(Drop)]
pub struct Path {
    numbers: [u16; 128],
    n: usize,
}

impl Model for Path {
    ghost Value = { List ℕ };

    ghost view = { λ p. take p.n p.numbers };

    ghost invariant = { λ p. p.n ≤ 128 };
}

impl Path {
    pub fn new() -> Path
        ensures { result ≡ [] }
    {
        Path {
            numbers: [0; 128],
            n: 0,
        }
    }

    #[inline]
    pub fn rows(&self) -> &[u16]
        ensures { result.now ≡ self.now }
    {
        &self.numbers[..self.n]
    }

    #[inline]
    pub fn push(&mut self, r: usize)
        requires { (length self.old < 128) × (r < 65536) }
        ensures { self.new ≡ self.old ++ r ∷ [] }
    {
        self.numbers[self.n] = r as u16;
        self.n += 1;
    }

    // Undoes `push`.
    #[inline]
    pub fn pop(&mut self)
        requires { 0 < length self.old }
        ensures { (rows : List ℕ) (r : ℕ) → self.old ≡ rows ++ r ∷ [] → self.new ≡ rows }
    {
        self.n -= 1;
    }
}
