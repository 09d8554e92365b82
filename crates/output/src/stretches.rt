// The stretches of a listing.
ghost use Rattle.std.specs.Prelude.{◌≡◌, ◌⊎◌, ◌+◌, ◌≤◌, ◌<◌, length};
ghost use Rattle.output.specs.Standing.{IsRead, Scratch, Standing};
ghost use Rattle.output.specs.Stretches.{Made, RefusedMade, Room, Stepped};

use crate::{Held, Progress, Stretch, lines, pages};
use files::{printing, reading};

// How many of a page's entries can be printed. Entry numbers have 64 bits: were they used up, the listing would stop there.
fn end_of(base: u64, written: usize) -> usize
    ensures { (result ≤ written) × (base + result ≤ 18446744073709551616)
        × ((result ≡ written) ⊎ (base + result ≡ 18446744073709551616)) }
{
    let left = u64::MAX - base;
    if left < written as u64 {
        left as usize + 1
    } else {
        written
    }
}

// The lines of entries that stand in the answer buffer and are not printed yet: as many as fit, and at least one.
fn held_lines(text: &[u8], held: &Held, answers: &[u8], out: &mut [u8]) -> Stretch
    requires { Standing text.now held.now answers.now × (held.now.from < held.now.written) × (4160 ≤ length out.old) }
    ensures { Made text.now held.now out.old answers.now out.new result }
{
    let base = held.base;
    let end = end_of(base, held.written);
    let lines::Lines { made, next } = lines::put_lines(
        out,
        base,
        answers,
        held.places,
        held.from,
        end,
    );
    if u64::MAX - base < next as u64 {
        return Stretch { made, next: None };
    }
    let held = Held {
        from: next,
        ..*held
    };
    Stretch {
        made,
        next: Some(Progress::Begun(held)),
    }
}

// The next stretch of a listing: lines of entries, from the next page where all entries in the answer buffer are printed, or the last
// line.
pub fn next_lines(
    text: &[u8],
    held: &Held,
    cells: &[u8],
    answers: &mut [u8],
    work: &mut [u64],
    links: &mut [u16],
    out: &mut [u8],
) -> Stretch
    requires { IsRead text.now held.now.asked cells.now work.old links.old × Standing text.now held.now answers.old
        × (4160 ≤ length out.old) }
    ensures { Made text.now held.now out.old answers.new out.new result
        × Scratch work.old links.old work.new links.new }
{
    if held.from < held.written {
        return held_lines(text, held, answers, out);
    }
    if held.further {
        let turned = pages::turn_page(text, held, cells, answers, work, links);
        return held_lines(text, &turned, answers, out);
    }
    Stretch {
        made: printing::put_last(out, 0, held.base + held.from as u64),
        next: None,
    }
}

// A refusal's line, which is printed alone.
fn refused_line(number: u8, out: &mut [u8]) -> Stretch
    requires { 64 ≤ length out.old }
    ensures { RefusedMade number out.old out.new result }
{
    Stretch {
        made: printing::put_refused(out, 0, number as u64),
        next: None,
    }
}

// The first stretch for a text: a refusal's line, or the first lines of its listing.
pub fn first_lines(
    text: &[u8],
    cells: &mut [u8],
    answers: &mut [u8],
    work: &mut [u64],
    links: &mut [u16],
    out: &mut [u8],
) -> Stretch
    requires { Room cells.old answers.old work.old links.old × (4160 ≤ length out.old) }
    ensures { Stepped text.now Progress.Unbegun cells.old work.old links.old out.old
        cells.new answers.new work.new links.new out.new result }
{
    let Some(asked) = reading::read_file(text, cells) else {
        // document 01's number for a text that is no file: such a text makes no call, so that 16 is no `Refusal`
        return refused_line(16, out);
    };
    match pages::first_page(text, asked, cells, answers, work, links) {
        Ok(held) => next_lines(text, &held, cells, answers, work, links, out),
        Err(why) => refused_line(why.number(), out),
    }
}
