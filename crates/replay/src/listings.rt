// Pages of a call: put together from small ones, and at the ends. Each is asked with stained slices, and what it must not touch is looked at afterwards.
ghost use Rattle.std.specs.Prelude.{◌≤◌};

use super::call::Call;
use super::stains::{LINK_STAIN, STAIN, WORD_STAIN, is_all, is_cleared, sum_bytes, touched};
use definitions::{Config, Page, Record, Refusal, SolverKind, Start};
use placements::records;
use solver::pages;
use std::io;

// An answer's bytes; 2 where a side is out of range. (No Option: such a call is refused whatever room it has, and 2 makes room as any other size.
// Not by `places_of` of output, which is private to it and says 0 there.)
fn size_of(board: Record) -> usize
    ensures { result ≤ 1024 }
{
    if records::sides_fit(board) {
        2 * records::volume_of(board)
    } else {
        2
    }
}

// An engine that is asked for pages of a call: the sum over all that it wrote, and whether all that it must not touch was as before.
#[derive(Drop)]
struct Asked<'a> {
    call: &'a Call<'a>,
    solver: SolverKind,
    sum: u64,
    kept: bool,
}

impl<'a> Asked<'a> {
    fn new(call: &'a Call<'a>, solver: SolverKind) -> Asked<'a> {
        Asked {
            call,
            solver,
            sum: 0,
            kept: true,
        }
    }

    // A refused call changes nothing.
    fn see_refused(&mut self, answers: &[u8], work: &[u64], links: &[u16]) {
        self.kept = self.kept
            && is_all(answers, STAIN)
            && is_all(work, WORD_STAIN)
            && is_all(links, LINK_STAIN);
    }

    // An accepted call that wrote so many bytes clears the first words and links; Fast leaves the links.
    fn see_accepted(&mut self, answers: &[u8], written: usize, work: &[u64], links: &[u16]) {
        let cleared = if self.solver == SolverKind::KnuthAlgorithm {
            32768
        } else {
            0
        };
        let (entries, rest) = answers.split_at(written.min(answers.len()));
        self.kept = self.kept
            && is_all(rest, STAIN)
            && is_cleared(work, 8192, 0, WORD_STAIN)
            && is_cleared(links, cleared, 0, LINK_STAIN);
        self.sum = sum_bytes(entries, self.sum);
    }

    // A page with room for so many bytes, at most 4,096, in slices of at most 8,200 words and 32,776 links.
    fn page(&mut self, room: usize, skip: u64) -> Result<Page, Refusal> {
        let mut answers = [STAIN; 4096];
        let mut work = [WORD_STAIN; 8200];
        let mut links = [LINK_STAIN; 32776];
        let answers = &mut answers[..room.min(4096)];
        let work = &mut work[..self.call.words.min(8200)];
        let links = &mut links[..self.call.links.min(32776)];
        let listing = pages::page(
            &self.call.pieces,
            self.call.board,
            self.call.bytes,
            Config {
                solver: self.solver,
                ..self.call.config
            },
            Start::Entry(skip),
            &[],
            answers,
            work,
            links,
        );
        match listing {
            Ok(found) => {
                // only a page that starts behind an entry may not find it
                let Some(page) = found else {
                    unreachable!();
                };
                let written = page.written.saturating_mul(size_of(self.call.board));
                self.see_accepted(answers, written, work, links);
                Ok(page)
            }
            Err(why) => {
                self.see_refused(answers, work, links);
                Err(why)
            }
        }
    }

    // Pages of three entries, one behind the other, at most 20 of them, as one.
    fn walk(&mut self) -> Result<Page, Refusal> {
        let room = 3 * size_of(self.call.board) + 1;
        let mut all = Page {
            written: 0,
            further: true,
        };
        for _ in 0..20 {
            let page = self.page(room, all.written as u64)?;
            all.written = all.written.saturating_add(page.written);
            all.further = page.further;
            if !page.further {
                break;
            }
        }
        Ok(all)
    }
}

// What a page wrote, and whether a further entry follows.
fn show_page(rt: &impl Print, page: Page, kept: bool) -> io::Result<()> {
    let further = if page.further { " further" } else { "" };
    let touched = touched(kept);
    print!(rt; " {}{further}{touched}", page.written)
}

// One page of a call.
fn show_asked(
    rt: &impl Print,
    call: &Call,
    solver: SolverKind,
    room: usize,
    skip: u64,
) -> io::Result<()> {
    let mut asked = Asked::new(call, solver);
    match asked.page(room, skip) {
        Ok(page) => show_page(rt, page, asked.kept),
        Err(why) => print!(rt; " refused {}", why.number()),
    }
}

// The pages of an engine's list that the call has, as lines.
fn show_list(rt: &impl Print, call: &Call, solver: SolverKind) -> io::Result<()> {
    let mut asked = Asked::new(call, solver);
    let all = match asked.walk() {
        Ok(all) => all,
        Err(why) => {
            let touched = touched(asked.kept);
            return println!(rt; "refused {}{touched}", why.number());
        }
    };
    print!(rt; "listed")?;
    show_page(rt, all, asked.kept)?;
    print!(rt; " sum {}\nroom for none", asked.sum)?;
    show_asked(rt, call, solver, 0, 0)?;
    if !all.further {
        let size = size_of(call.board);
        print!(rt; "\npast the end")?;
        show_asked(rt, call, solver, size, all.written as u64)?;
        print!(rt; "\nat the last skip")?;
        show_asked(rt, call, solver, size, u64::MAX)?;
    }
    println!(rt)
}

// The pages of both engines.
pub(crate) fn show(rt: &impl Print, call: &Call) -> io::Result<()> {
    print!(rt; "fast: ")?;
    show_list(rt, call, SolverKind::Fast)?;
    print!(rt; "knuth: ")?;
    show_list(rt, call, SolverKind::KnuthAlgorithm)
}
