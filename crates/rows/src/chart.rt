// The chart of a tray: what the engines read of it beside its rows.
ghost use Rattle.std.specs.Prelude.{◌≡◌, ◌≤◌, ◌<◌, get_or, replicate};

// What stands of a kind: how many copies it has, its mirror partner (the number of kinds where it has none), and of how many cells it is, 512 at most. (No
// Option for the partner: it is looked up among rows as any kind, and no row is of the kind behind the last.)
#[derive(Clone, Copy)]
pub struct Kind {
    pub copies: u8,
    pub partner: u8,
    pub size: u16,
    pub ghost few: { size ≤ 512 },
}

// A piece of the box: the number of its kind, and how many copies of it there are.
#[derive(Clone, Copy)]
pub struct Owned {
    pub kind: u8,
    pub count: u8,
}

// Where the rows of each range begin, those of kind k at cell c being range 128·k + c, and behind the last range the number of rows; where each map that
// brings the board onto itself takes each cell, number 128·m + c being that of map m and cell c; the scan number of the cell at each place of the lent
// box (the number of filled cells where it is unfilled: an answer is written for each place, and no cell has that number); the kinds and the pieces.
// (Arrays of fixed length, and `Dims` has how much of them is used: nothing is put on a heap.)
#[derive(Drop)]
pub struct Chart {
    pub starts: [u16; 2049],
    pub images: [u8; 6144],
    pub scans: [u8; 512],
    pub kinds: [Kind; 16],
    pub pieces: [Owned; 16],
}

impl Chart {
    ghost use Rattle.rows.specs.Charts.{kind_copies, kind_partner, kind_size, no_kind, nothing_owned};

    // The chart of no tray.
    pub fn empty() -> Chart
        ensures starts { result.starts ≡ replicate 2049 0 }
        ensures images { result.images ≡ replicate 6144 0 }
        ensures scans { result.scans ≡ replicate 512 0 }
        ensures kinds { result.kinds ≡ replicate 16 no_kind }
        ensures pieces { result.pieces ≡ replicate 16 nothing_owned }
    {
        Chart {
            starts: [0; 2049],
            images: [0; 6144],
            scans: [0; 512],
            kinds: [Kind {
                copies: 0,
                partner: 0,
                size: 0,
            }; 16],
            pieces: [Owned { kind: 0, count: 0 }; 16],
        }
    }

    // Where the rows of range i begin.
    pub fn start_at(&self, i: usize) -> usize
        requires { i ≤ 2048 }
        ensures { result ≡ get_or self.now.starts i 0 }
    {
        self.starts[i] as usize
    }

    // Number i of the images.
    pub fn image_at(&self, i: usize) -> usize
        requires { i < 6144 }
        ensures { result ≡ get_or self.now.images i 0 }
    {
        self.images[i] as usize
    }

    // The scan number of the cell at a place of the lent box.
    pub fn scan_at(&self, place: usize) -> usize
        requires { place < 512 }
        ensures { result ≡ get_or self.now.scans place 0 }
    {
        self.scans[place] as usize
    }

    // How many copies a kind has.
    pub fn copies_of(&self, kind: usize) -> usize
        requires { kind < 16 }
        ensures { (result ≡ kind_copies self.now.kinds kind) × (result < 256) }
    {
        self.kinds[kind].copies as usize
    }

    // The mirror partner of a kind.
    pub fn partner_of(&self, kind: usize) -> usize
        requires { kind < 16 }
        ensures { result ≡ kind_partner self.now.kinds kind }
    {
        self.kinds[kind].partner as usize
    }

    // How many cells a kind has.
    pub fn size_of(&self, kind: usize) -> usize
        requires { kind < 16 }
        ensures { (result ≡ kind_size self.now.kinds kind) × (result < 65536) }
    {
        self.kinds[kind].size as usize
    }

    // The kind of a piece.
    pub fn kind_of(&self, piece: usize) -> usize
        requires { piece < 16 }
        ensures { result ≡ (get_or self.now.pieces piece nothing_owned).kind }
    {
        self.pieces[piece].kind as usize
    }

    // How many copies of a piece there are.
    pub fn count_of(&self, piece: usize) -> usize
        requires { piece < 16 }
        ensures { (result ≡ (get_or self.now.pieces piece nothing_owned).count) × (result < 256) }
    {
        self.pieces[piece].count as usize
    }
}
