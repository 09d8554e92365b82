// The pages of a listing: each begins behind the last entry of the one before it, so that nothing is searched twice, and has room for
// eight times as many entries, or for as many as fit the buffer.
ghost use Rattle.std.specs.Prelude.{◌≡◌, true, ◌+◌, ◌*◌, ◌≤◌, ◌<◌, length};
ghost use Rattle.output.specs.Standing.{Begins, IsRead, PageAfter, Standing, Turned, grown_room, places_of};

use crate::Held;
use definitions::{Listing, Record, Refusal, Start};
use files::reading::Asked;
use placements::records;
use solver::pages;

// Room for eight times as many entries, or for as many as fit.
fn grown(room: usize, size: usize, len: usize) -> usize
    requires { (1 ≤ size) × (room * size ≤ len) × (len < 4611686018427387904) }
    ensures { (result ≡ grown_room room size len) × (room ≤ result) × (result * size ≤ len) }
{
    let fit = len / size;
    if room <= fit / 8 { 8 * room } else { fit }
}

// The page behind the answer in a place of the answer buffer, over the start of that buffer.
fn page_after(
    asked: &Asked,
    cells: &[u8],
    size: usize,
    place: usize,
    room: usize,
    answers: &mut [u8],
    work: &mut [u64],
    links: &mut [u16],
) -> Listing
    requires { (size ≤ 1024) × (place * size + size ≤ length answers.old) × (room * size ≤ length answers.old)
        × (asked.now.used ≤ length cells.now) }
    ensures { PageAfter asked.now cells.now size place room
        answers.old work.old links.old result answers.new work.new links.new }
{
    let start = place * size;
    let mut last = [0u8; 1024];
    last[..size].copy_from_slice(&answers[start..start + size]);
    pages::page(
        &asked.pieces,
        asked.board,
        &cells[..asked.used],
        asked.config,
        Start::Behind,
        &last[..size],
        &mut answers[..room * size],
        work,
        links,
    )
}

// The next page, where all entries in the answer buffer are printed and a further one follows.
pub fn turn_page(
    text: &[u8],
    held: &Held,
    cells: &[u8],
    answers: &mut [u8],
    work: &mut [u64],
    links: &mut [u16],
) -> Held
    requires { IsRead text.now held.now.asked cells.now work.old links.old × Standing text.now held.now answers.old
        × (held.now.from ≡ held.now.written) × (held.now.further ≡ true) }
    ensures { Turned text.now held.now work.old links.old
        answers.new work.new links.new result }
{
    let size = 2 * held.places;
    let room = grown(held.room, size, answers.len());
    let place = held.written - 1;
    match page_after(&held.asked, cells, size, place, room, answers, work, links) {
        Ok(Some(page)) => Held {
            base: held.base + held.written as u64,
            from: 0,
            written: page.written,
            further: page.further,
            room,
            ..*held
        },
        // the call is accepted, and the entry is one of the list
        Ok(None) => unreachable!(),
        Err(_) => unreachable!(),
    }
}

// The places of a board's box; 0 where a side is out of range. (No Option: a call with such a board is refused whatever room it has,
// and 0 makes it none. Not `size_of` of `replay`, which stands beside this crate and makes room for an answer there.)
#[tactic(auto, unfolding(crate::specs::Standing::places_of))]
fn places_of(board: Record) -> usize
    ensures { (result ≡ places_of board) × (result ≤ 512) }
{
    if records::sides_fit(board) {
        records::volume_of(board)
    } else {
        0
    }
}

// The first page, with room for one entry; or why the call is refused.
pub fn first_page(
    text: &[u8],
    asked: Asked,
    cells: &[u8],
    answers: &mut [u8],
    work: &mut [u64],
    links: &mut [u16],
) -> Result<Held, Refusal>
    requires { IsRead text.now asked cells.now work.old links.old
        × (1024 ≤ length answers.old) × (length answers.old < 4611686018427387904) }
    ensures { Begins text.now asked work.old links.old
        answers.new work.new links.new result }
{
    let places = places_of(asked.board);
    let end = 2 * places;
    let first = pages::page(
        &asked.pieces,
        asked.board,
        &cells[..asked.used],
        asked.config,
        Start::Entry(0),
        &[],
        &mut answers[..end],
        work,
        links,
    )?;
    // a page that starts at an entry by its number is always there
    let page = first.unwrap();
    Ok(Held {
        asked,
        base: 0,
        from: 0,
        written: page.written,
        further: page.further,
        room: 1,
        places,
    })
}
