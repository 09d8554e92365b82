// The text for DLX1 of a call: with room to spare, with just enough, and with one byte less. Each is asked with stained slices, and what it must not touch is
// looked at afterwards.
use super::call::Call;
use super::stains::{STAIN, WORD_STAIN, is_all, is_cleared, sum_bytes, touched};
use definitions::Refusal;
use dlx::calls;
use std::io;

// A text that was asked for: how many bytes it has or why there is none, the sum over them, and whether all that must not be touched was as before.
#[derive(Drop)]
struct Asked {
    reply: Result<usize, Refusal>,
    sum: u64,
    kept: bool,
}

// A text with room for so many bytes, at most 4,096, in a slice of at most 8,200 words.
fn ask(call: &Call, room: usize) -> Asked {
    let mut output = [STAIN; 4096];
    let mut work = [WORD_STAIN; 8200];
    let output = &mut output[..room.min(4096)];
    let work = &mut work[..call.words.min(8200)];
    let reply = calls::text(&call.pieces, call.board, call.bytes, output, work);
    match reply {
        Ok(written) => {
            let (text, rest) = output.split_at(written.min(output.len()));
            Asked {
                reply,
                sum: sum_bytes(text, 0),
                kept: is_all(rest, STAIN) && is_cleared(work, 8192, 0, WORD_STAIN),
            }
        }
        Err(_) => Asked {
            reply,
            sum: 0,
            kept: is_all(output, STAIN) && is_all(work, WORD_STAIN),
        },
    }
}

// What was asked for.
fn show_asked(rt: &impl Print, asked: &Asked) -> io::Result<()> {
    let touched = touched(asked.kept);
    match asked.reply {
        Ok(written) => print!(rt; " {written} sum {}{touched}", asked.sum),
        Err(why) => print!(rt; " refused {}{touched}", why.number()),
    }
}

// The text, of which at most 4,096 bytes are asked for: a longer one is refused.
pub(crate) fn show(rt: &impl Print, call: &Call) -> io::Result<()> {
    let asked = ask(call, 4096);
    print!(rt; "text")?;
    show_asked(rt, &asked)?;
    if let Ok(length) = asked.reply {
        print!(rt; "\nroom for it alone")?;
        show_asked(rt, &ask(call, length))?;
        print!(rt; "\na byte less")?;
        show_asked(rt, &ask(call, length.saturating_sub(1)))?;
    }
    println!(rt)
}
