// What is wanted of the packings that a search finds.
ghost use Rattle.std.specs.Prelude.{cond, Some, None, option_copied, ◌≡◌, take};
ghost use Rattle.definitions.specs.Starts.{waits_at};
ghost use Rattle.rows.specs.Shown.{Shown};

use super::emission::Emission;
use rows::row_system::RowSystem;

// The row system; which packings are identified, and for how many answers there is room; the entry that may be waited for, and what it shows on the cells of
// the board. (Two flags and no enum: a list is promised for any two, also for mirrorings without turns.)
#[derive(Clone, Copy)]
pub struct Wanted<'a> {
    pub system: RowSystem<'a>,
    pub turned: bool,
    pub mirrored: bool,
    pub capacity: usize,
    pub last: &'a [u8],
    pub shown: [u8; 256],
    pub ghost last_shown: { Shown system.d.size (take system.d.places system.chart.now.scans) last.now shown },
}

impl<'a> Wanted<'a> {
    // What is wanted, and with it what the entry shows.
    pub fn new(
        system: &RowSystem<'a>,
        turned: bool,
        mirrored: bool,
        capacity: usize,
        last: &'a [u8],
    ) -> Wanted<'a>
        ensures system { result.system ≡ system.now }
        ensures identified { (result.turned ≡ turned) × (result.mirrored ≡ mirrored) }
        ensures room { result.capacity ≡ capacity }
        ensures last { result.last.now ≡ last.now }
    {
        Wanted {
            system: *system,
            turned,
            mirrored,
            capacity,
            last,
            shown: system.show_cells(last),
        }
    }

    // What the entry shows, while it is waited for.
    #[inline]
    pub fn shown_while(&self, e: &Emission) -> Option<&[u8; 256]>
        ensures { option_copied result ≡ cond (waits_at e.now.start) (Some self.now.shown) None }
    {
        if e.is_waiting() {
            Some(&self.shown)
        } else {
            None
        }
    }
}
