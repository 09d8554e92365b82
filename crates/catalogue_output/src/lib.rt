// What `catalogue` prints for what it reads: all pieces of so many cells, a line each that can be pasted into a tray's file, and how many they are; or a
// refusal's line, alone.
//
// Every function here is proved, and the crate assumes nothing.
#![tactic(auto)]

mod lines;
mod requests;

ghost use Rattle.std.specs.Prelude.{◌≡◌, ◌≤◌, drop, length};
ghost use Rattle.definitions.specs.CatalogueCalls.{CataloguePrintedRight, catalogue_printed};
ghost use Rattle.texts.specs.Put.{Put};

use files::printing;

// All that is printed for what is read, whatever it is, at the start of `out`, and how many bytes that is. The first 3,486 bytes of the entries may be
// overwritten: room for 166 entries of 21 bytes, the most that there are; `out` has room for as many lines of 33 bytes, and 64 bytes more.
// (`right` is a law: of a request that is not refused all pieces are printed, a line for each that can be pasted into a tray, and last how many they are.)
pub fn put_printed(text: &[u8], entries: &mut [u8], out: &mut [u8]) -> usize
    requires { (3486 ≤ length entries.old) × (5542 ≤ length out.old) }
    ensures printed { Put out.old 0 (catalogue_printed text.now) out.new result }
    ensures entries { drop 3486 entries.new ≡ drop 3486 entries.old }
    ensures right { CataloguePrintedRight }
{
    let Some(n) = requests::read_request(text) else {
        // document 01's number for a text that is malformed: such a text makes no call, so that 16 is no `Refusal`
        return printing::put_refused(out, 0, 16);
    };
    match polycubes::page(n, 0, entries) {
        Ok(page) => lines::put_listing(out, &entries[..page.written * 21]),
        Err(why) => printing::put_refused(out, 0, why.number() as u64),
    }
}
