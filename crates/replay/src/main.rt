// Reads calls from standard input, each as numbers, and prints the refusal of each, or its row system: sizes, kinds, pieces, what the allowed maps do to
// cells on smaller boards, and rows; for some calls pages of both engines' lists too; and for each the text for DLX1, or why there is none. The stored output
// is the oracle's (oracle/replay.py).
#![tactic(auto)]

ghost use Rattle.std.specs.Prelude.{◌≤◌, length};

mod call;
mod dlx_text;
mod listings;
mod reader;
mod stains;
mod systems;

use reader::Reader;
use std::io;
use std::io::Read;

// A call, and what of it is shown.
fn show_call(rt: &impl Print, reader: &mut Reader, cells: &mut [u8]) -> io::Result<()>
    ensures { length reader.new.text.now ≤ length reader.old.text.now }
{
    let (call, shown) = call::read(reader, cells);
    if shown.system {
        systems::show(rt, &call)?;
    }
    if shown.pages {
        listings::show(rt, &call)?;
    }
    dlx_text::show(rt, &call)
}

// The calls of a text, one behind the other, up to the end, or one of which nothing can be read.
fn show_calls(rt: &impl Print, text: &[u8]) -> io::Result<()> {
    let mut reader = Reader { text };
    let mut cells = [0; 2048];
    // less of the text is left each time
    while !reader.is_at_end() {
        let left = reader.text.len();
        show_call(rt, &mut reader, &mut cells)?;
        if reader.text.len() == left {
            break;
        }
    }
    Ok(())
}

// At most 65,536 bytes of the input are read; a read that fails ends them, as the input's end does. A write that fails ends it, and changes no status. (On the
// heap, unlike `pack`: a program of the gate.)
fn main(rt: HostRuntime) {
    let mut text = Vec::new(rt.alloc());
    let _ = rt.reader().take(65536).read_to_end(&mut text);
    let _ = show_calls(&rt, &text);
}
