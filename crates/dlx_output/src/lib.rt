// What `dlx1` prints for what it reads: the text for Knuth's DLX1, or a refusal's line, alone.
//
// Every function here is proved, and the crate assumes nothing.
#![tactic(auto)]

ghost use Rattle.std.specs.Prelude.{◌≡◌, ◌≤◌, ◌&&◌, cond, drop, eqb, length};
ghost use Rattle.definitions.specs.Files.{is_file};
ghost use Rattle.definitions.specs.Outcomes.{cleared};
ghost use Rattle.definitions.specs.TextCalls.{TextPrintedRight, dlx1_number, dlx1_printed};
ghost use Rattle.texts.specs.Put.{Put};

use dlx::calls;
use files::{printing, reading};

// All that is printed for what is read, whatever it is, at the start of `out`, and how many bytes that is. The first 16,384 cells may be overwritten; of the
// work words those that a call uses are 0 afterwards, where it was accepted, and else none is changed. (That `out` has room is asked for, since no text is
// longer than 663,552 bytes: so 18 is never printed, nor 12. `right` is a law: what is printed for a file that is not
// refused is a text that says its tray.)
pub fn put_printed(text: &[u8], cells: &mut [u8], work: &mut [u64], out: &mut [u8]) -> usize
    requires { (16384 ≤ length cells.old) × (8192 ≤ length work.old) × (663552 ≤ length out.old) }
    ensures printed { Put out.old 0 (dlx1_printed text.now) out.new result }
    ensures cells { drop 16384 cells.new ≡ drop 16384 cells.old }
    ensures work { work.new ≡ cond (is_file text.now && eqb (dlx1_number text.now) 0) (cleared 8192 work.old) work.old }
    ensures right { TextPrintedRight }
{
    let Some(asked) = reading::read_file(text, cells) else {
        // document 01's number for a text that is no file: such a text makes no call, so that 16 is no `Refusal`
        return printing::put_refused(out, 0, 16);
    };
    match calls::text(&asked.pieces, asked.board, &cells[..asked.used], out, work) {
        Ok(written) => written,
        Err(why) => printing::put_refused(out, 0, why.number() as u64),
    }
}
