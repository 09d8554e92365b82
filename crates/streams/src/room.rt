// The memory that a text is read into, and printed with as `pack` prints it.
ghost use Rattle.std.specs.Prelude.{◌≡◌, OnOk, OnErr, replicate, take};
ghost use Rattle.std.specs.Io.KnownBytes.{Appends};
ghost use Rattle.definitions.specs.EmptyBox.{EmptyBoxPrinted};
ghost use Rattle.definitions.specs.Files.{packed};
ghost use Rattle.definitions.specs.Printed.{PrintedRight};
ghost use Rattle.definitions.specs.Woods.{OneWoodPrinted};
ghost use Rattle.streams.specs.Running.{Ran};
ghost use Rattle.streams.specs.Writing.{AppendsFront};

use super::failure::{Failure, ended};
use super::print;
use super::text::Text;
use std::io;
use std::io::{Read, Write};

// All of it: the text; its cells, the answers of a page, the work words and links of the search, and bytes to be written.
#[derive(Drop)]
pub struct Room {
    pub text: Text,
    cells: [u8; 16384],
    answers: [u8; 262144],
    work: [u64; 8192],
    links: [u16; 32768],
    out: [u8; 65536],
}

impl Room {
    pub fn new() -> Room
        ensures text { result.text.bytes ≡ replicate 16385 0 }
        ensures read { result.text.read ≡ 0 }
        ensures cells { result.cells ≡ replicate 16384 0 }
        ensures answers { result.answers ≡ replicate 262144 0 }
        ensures work { result.work ≡ replicate 8192 0 }
        ensures links { result.links ≡ replicate 32768 0 }
        ensures out { result.out ≡ replicate 65536 0 }
    {
        Room {
            text: Text::new(),
            cells: [0; 16384],
            answers: [0; 262144],
            work: [0; 8192],
            links: [0; 32768],
            out: [0; 65536],
        }
    }

    // Writes what `pack` prints for the text that is read; where a write fails, a beginning of it. What else the room holds afterwards is free.
    pub fn print<W: Write>(&mut self, writer: &mut W) -> io::Result<()>
        ensures ok { let text = self.old.text in
            OnOk result (Appends (W.contents writer.old) (W.contents writer.new) (packed (take text.read text.bytes))) }
        ensures err { let text = self.old.text in
            OnErr result (AppendsFront (W.contents writer.old) (W.contents writer.new) (packed (take text.read text.bytes))) }
        ensures text { self.new.text ≡ self.old.text }
        ensures right { PrintedRight × EmptyBoxPrinted × OneWoodPrinted }
    {
        print(
            writer,
            self.text.as_slice(),
            &mut self.cells,
            &mut self.answers,
            &mut self.work,
            &mut self.links,
            &mut self.out,
        )
    }

    // A run of `pack`: reads a text, and writes what is printed for it.
    #[tactic(auto, using(crate::proofs::RunLaws::ran))]
    pub fn run<R: Read, W: Write>(&mut self, input: &mut R, output: &mut W) -> Result<(), Failure>
        ensures ran { Ran packed (R.remaining input.old) (R.remaining input.new) (W.contents output.old) (W.contents output.new) result }
        ensures right { PrintedRight × EmptyBoxPrinted × OneWoodPrinted }
    {
        let read = self.text.read(input);
        let printed = self.print(output);
        ended(read, printed)
    }
}
