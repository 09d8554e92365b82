// The memory that a request is read into, and answered with as `catalogue` prints it.
ghost use Rattle.std.specs.Prelude.{◌≡◌, OnOk, OnErr, replicate, take};
ghost use Rattle.std.specs.Io.KnownBytes.{Appends};
ghost use Rattle.definitions.specs.CatalogueCalls.{CataloguePrintedRight, catalogue_printed};
ghost use Rattle.streams.specs.Running.{Ran};
ghost use Rattle.streams.specs.Writing.{AppendsFront};

use super::failure::{Failure, ended};
use super::text::Text;
use super::write_last;
use std::io;
use std::io::{Read, Write};

// All of it: the text; the entries of a list, and bytes to be written, enough for the longest list.
#[derive(Drop)]
pub struct CatalogueRoom {
    pub text: Text,
    entries: [u8; CatalogueRoom::ENTRIES],
    out: [u8; CatalogueRoom::MOST],
}

impl CatalogueRoom {
    // So many bytes hold any list's entries: 166 of 21 bytes.
    const ENTRIES: usize = 3486;

    // So many bytes hold what is printed of any list: 166 lines of 33 bytes, and 64 bytes more.
    const MOST: usize = 5542;

    pub fn new() -> CatalogueRoom
        ensures text { result.text.bytes ≡ replicate 16385 0 }
        ensures read { result.text.read ≡ 0 }
        ensures entries { result.entries ≡ replicate 3486 0 }
        ensures out { result.out ≡ replicate 5542 0 }
    {
        CatalogueRoom {
            text: Text::new(),
            entries: [0; CatalogueRoom::ENTRIES],
            out: [0; CatalogueRoom::MOST],
        }
    }

    // Writes what `catalogue` prints for the text that is read, all at once; where a write fails, a beginning of it. What else the room holds afterwards is
    // free.
    pub fn print<W: Write>(&mut self, writer: &mut W) -> io::Result<()>
        ensures ok { let text = self.old.text in
            OnOk result (Appends (W.contents writer.old) (W.contents writer.new) (catalogue_printed (take text.read text.bytes))) }
        ensures err { let text = self.old.text in
            OnErr result (AppendsFront (W.contents writer.old) (W.contents writer.new) (catalogue_printed (take text.read text.bytes))) }
        ensures text { self.new.text ≡ self.old.text }
        ensures right { CataloguePrintedRight }
    {
        let made = catalogue_output::put_printed(
            self.text.as_slice(),
            &mut self.entries,
            &mut self.out,
        );
        write_last(writer, &self.out[..made])
    }

    // A run of `catalogue`: reads a text, and writes what is printed for it.
    #[tactic(auto, using(crate::proofs::RunLaws::ran))]
    pub fn run<R: Read, W: Write>(&mut self, input: &mut R, output: &mut W) -> Result<(), Failure>
        ensures ran { Ran catalogue_printed (R.remaining input.old) (R.remaining input.new) (W.contents output.old) (W.contents output.new) result }
        ensures right { CataloguePrintedRight }
    {
        let read = self.text.read(input);
        let printed = self.print(output);
        ended(read, printed)
    }
}
