// A row system that stands in the slices that an engine is lent, and what the engines ask of it.
ghost use Rattle.std.specs.Prelude.{map, option_copied, ◌≡◌, ◌+◌, ◌*◌, ◌≤◌, ◌<◌, length, take};
ghost use Rattle.std.proofs.Math.Seq.{paste};
ghost use Rattle.lists.specs.Lists.{below, same};
ghost use Rattle.rows.specs.Charts.{kind_partner};
ghost use Rattle.rows.specs.Rows.{row_at, rows_in};
ghost use Rattle.rows.specs.Systems.{kind_by, moved_by, owned_in, row_with};
ghost use Rattle.rows.specs.Answering.{Held, answers_over, taken_in};
ghost use Rattle.rows.specs.Shown.{Shown, leads_by};
ghost use Rattle.rows.specs.Ready.{Ready, Sized};

use super::chart::Chart;
use super::{Dims, answers, images, shown};

// How large it is, and the words and the chart in which it stands, ready for the engines. That it is ready is a fact told by cases (which map is the
// inverse, which row the image), and a ghost field is a proposition: so it stands as one. Beside it stands how large it is, which the check reads as it is.
// (The functions that the methods call take what they need of the three, one by one: they are public and ask less than this type.)
#[derive(Clone, Copy)]
pub struct RowSystem<'a> {
    pub d: Dims,
    pub work: &'a [u64],
    pub chart: &'a Chart,
    pub ghost sized: { Sized d work.now chart.now },
    pub ghost ready: { ∥ Ready d work.now chart.now ∥₁ },
}

impl<'a> RowSystem<'a> {
    ghost use Rattle.rows.specs.RowSystems.{images_under, is_mirroring};

    // Whether map m is a mirroring: those stand behind the turns.
    #[inline]
    pub fn is_mirroring(&self, m: usize) -> bool
        ensures { result ≡ is_mirroring self.now m }
    {
        self.d.turns <= m
    }

    // The kind after a map.
    #[inline]
    pub fn kind_after(&self, odd: bool, kind: usize) -> usize
        requires { kind < self.now.d.kinds }
        ensures { let s = self.now in
            result ≡ kind_by (map (kind_partner s.chart.now.kinds) (below s.d.kinds)) odd kind }
    {
        images::kind_after(self.chart, self.d.kinds, odd, kind)
    }

    // The image of row r under map m: its number, and the number of rows where it has none.
    #[inline]
    pub fn image_row(&self, m: usize, r: usize) -> usize
        requires { let d = self.now.d in (m < d.turns + d.mirrorings) × (r < d.rows) }
        ensures { let s = self.now in
            let partners = map (kind_partner s.chart.now.kinds) (below s.d.kinds) in
            let moved = moved_by partners (is_mirroring s m) (images_under s m) (row_at s.work.now r) in
            result ≡ row_with (rows_in s.work.now s.d.rows) moved }
    {
        let odd = self.is_mirroring(m);
        images::image_row(self.d, self.work, self.chart, m, odd, r)
    }

    // The two bytes that an answer has for each cell of the board.
    #[inline]
    pub fn show_cells(&self, last: &[u8]) -> [u8; 256]
        ensures { let s = self.now in Shown s.d.size (take s.d.places s.chart.now.scans) last.now result }
    {
        shown::show_cells(self.d, self.chart, last)
    }

    // Whether the packings with row r are to be looked at: all are where no answer is waited for, else those that may have it, by what it shows.
    #[inline]
    pub fn leads(&self, shown: Option<&[u8; 256]>, r: usize) -> bool
        requires { r < self.now.d.rows }
        ensures { let s = self.now in
            result ≡ leads_by (owned_in s.chart.now.pieces s.d.pieces) (option_copied shown.entry) (row_at s.work.now r) }
    {
        shown::leads(self.d, self.work, self.chart, shown, r)
    }

    // The answer of a packing whose rows are those of an ascending path: two bytes for each place of the board's box, from a place of the slice on.
    #[inline]
    pub fn reconstruct_answer(&self, path: &[u16], answers: &mut [u8], at: usize)
        requires { let s = self.now in Held s.d s.work.now s.chart.now path.now × (at + 2 * s.d.places ≤ length answers.old) }
        ensures { let s = self.now in
            let taken = taken_in s.d s.work.now s.chart.now path.now in
            let told = answers_over taken (take s.d.places s.chart.now.scans) in
            answers.new ≡ paste answers.old at told (2 * s.d.places) }
    {
        answers::reconstruct_answer(self.d, self.work, self.chart, path, answers, at);
    }

    // Whether a slice is the answer of a packing whose rows are those of an ascending path.
    #[inline]
    pub fn is_answer(&self, path: &[u16], last: &[u8]) -> bool
        requires { let s = self.now in Held s.d s.work.now s.chart.now path.now }
        ensures { let s = self.now in
            let taken = taken_in s.d s.work.now s.chart.now path.now in
            let told = answers_over taken (take s.d.places s.chart.now.scans) in
            result ≡ same told last.now }
    {
        answers::is_answer(self.d, self.work, self.chart, path, last)
    }
}
