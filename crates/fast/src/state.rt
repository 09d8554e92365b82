// The state of a search: the rows chosen, and how many copies of each kind are left.
ghost use Rattle.std.specs.Prelude.{[], ◌∷◌, ◌++◌, List, map, ◌≡◌, ℕ, ◌+◌, ◌-◌, ◌≤◌, ◌<◌, get_or, length, set, take};
ghost use Rattle.lists.specs.Lists.{below};
ghost use Rattle.rows.specs.Charts.{kind_copies};

use kept::path::Path;
use rows::chart::Chart;

// The path is the rows chosen, one after the other. (`left` has a place for each of 16 kinds, however many there are: nothing is put on a heap.)
#[derive(Drop)]
pub struct State {
    path: Path,
    left: [u16; 16],
}

impl State {
    // Nothing is chosen, and all copies of so many kinds are left.
    pub fn begin(chart: &Chart, kinds: usize) -> State
        requires { (kinds ≤ 16) }
        ensures { let copies = map (kind_copies chart.now.kinds) (below kinds) in
            (result.path ≡ []) × (take kinds result.left ≡ copies) }
    {
        let mut left = [0u16; 16];
        // the copies of the kinds before k stand in `left`
        for k in 0..kinds {
            left[k] = chart.copies_of(k) as u16;
        }
        State {
            path: Path::new(),
            left,
        }
    }

    // The rows chosen.
    #[inline]
    pub fn rows(&self) -> &[u16]
        ensures { result.now ≡ self.now.path }
    {
        self.path.rows()
    }

    // How many copies of a kind are left.
    pub fn left_of(&self, kind: usize) -> u16
        requires { kind < 16 }
        ensures { result ≡ get_or self.now.left kind 0 }
    {
        self.left[kind]
    }

    // How many copies of kind k are left when one of a kind is placed.
    pub fn left_after(&self, kind: usize, k: usize) -> u16
        requires { (k < 16) × (0 < get_or self.now.left kind 0) }
        ensures { let left = self.now.left in
            result ≡ get_or (set left kind (get_or left kind 0 - 1)) k 0 }
    {
        let copies = self.left[k];
        if k == kind { copies - 1 } else { copies }
    }

    // Row r, of a kind, is chosen behind the others.
    #[inline]
    pub fn place_row(&mut self, kind: usize, r: usize)
        requires { (kind < 16) × (0 < get_or self.old.left kind 0) × (length self.old.path < 128) × (r < 65536) }
        ensures { let left = self.old.left in
            (self.new.path ≡ self.old.path ++ r ∷ []) × (self.new.left ≡ set left kind (get_or left kind 0 - 1)) }
    {
        self.left[kind] -= 1;
        self.path.push(r);
    }

    // The last row chosen, of a kind, is put back.
    #[inline]
    pub fn put_back(&mut self, kind: usize)
        requires { (kind < 16) × (get_or self.old.left kind 0 < 65535) × (0 < length self.old.path) }
        ensures { let left = self.old.left in
            ((rows : List ℕ) (r : ℕ) → self.old.path ≡ rows ++ r ∷ [] → self.new.path ≡ rows)
            × (self.new.left ≡ set left kind (get_or left kind 0 + 1)) }
    {
        self.path.pop();
        self.left[kind] += 1;
    }
}
