// What `pack` prints for a text, stretch by stretch: `step` makes the next stretch of it. What was still to be printed is the bytes
// that a step makes and then what is still to be printed after it; before the first step it is all that document 01 has `pack` print
// for the text, whatever the text is.
//
// Every function here is proved, and the crate assumes nothing.
#![tactic(auto)]

mod lines;
mod pages;
mod stretches;

ghost use Rattle.std.specs.Prelude.{◌≤◌, length};
ghost use Rattle.output.specs.Stretches.{Ready, Stepped};

use files::reading::Asked;

// How far a listing is: what the text asks for was read; `written` entries stand in the answer buffer, the first of them entry `base`
// of the list, and `from` of them are printed; `further`: whether an entry follows them; the next page has room for `room` entries at
// least; the board's box has `places` cells.
#[derive(Clone, Copy)]
pub struct Held {
    pub asked: Asked,
    pub base: u64,
    pub from: usize,
    pub written: usize,
    pub further: bool,
    pub room: usize,
    pub places: usize,
}

// How far the output is: nothing is printed yet, and nothing read; or a listing has begun.
#[derive(Clone, Copy)]
pub enum Progress {
    Unbegun,
    Begun(Held),
}

// How many bytes were made, and how far the output is then; nowhere, where that is all.
#[derive(Clone, Copy)]
pub struct Stretch {
    pub made: usize,
    pub next: Option<Progress>,
}

// The next stretch of what is printed for a text, at the start of `out`: a refusal, alone; the lines of entries, as many as stand ready
// and fit; or the last line. The other slices keep what the next step needs: the text's cells, the answers of a page, and the work
// words and links of the search. (No struct of slices: some are only read further down, and it would be taken apart at each call.
// 4160 bytes hold the longest line, 8 for each of 512 places and 64 more: a clause, since fixed memory of any such length is lent.)
pub fn step(
    text: &[u8],
    progress: &Progress,
    cells: &mut [u8],
    answers: &mut [u8],
    work: &mut [u64],
    links: &mut [u16],
    out: &mut [u8],
) -> Stretch
    requires { Ready text.now progress.now cells.old answers.old work.old links.old × (4160 ≤ length out.old) }
    ensures { Stepped text.now progress.now cells.old work.old links.old out.old
        cells.new answers.new work.new links.new out.new result }
{
    match progress {
        Progress::Unbegun => stretches::first_lines(text, cells, answers, work, links, out),
        Progress::Begun(held) => {
            stretches::next_lines(text, held, cells, answers, work, links, out)
        }
    }
}
