// The memory that a text is read into, and printed with as `dlx1` prints it.
ghost use Rattle.std.specs.Prelude.{◌≡◌, OnOk, OnErr, replicate, take};
ghost use Rattle.std.specs.Io.KnownBytes.{Appends};
ghost use Rattle.definitions.specs.TextCalls.{TextPrintedRight, dlx1_printed};
ghost use Rattle.streams.specs.Running.{Ran};
ghost use Rattle.streams.specs.Writing.{AppendsFront};

use super::failure::{Failure, ended};
use super::text::Text;
use super::write_last;
use std::io;
use std::io::{Read, Write};

// All of it: the text; its cells, the work words of the call, and bytes to be written, enough for any text for DLX1.
#[derive(Drop)]
pub struct Dlx1Room {
    pub text: Text,
    cells: [u8; 16384],
    work: [u64; 8192],
    out: [u8; Dlx1Room::MOST],
}

impl Dlx1Room {
    // So many bytes hold any text for DLX1.
    const MOST: usize = 663552;

    pub fn new() -> Dlx1Room
        ensures text { result.text.bytes ≡ replicate 16385 0 }
        ensures read { result.text.read ≡ 0 }
        ensures cells { result.cells ≡ replicate 16384 0 }
        ensures work { result.work ≡ replicate 8192 0 }
        ensures out { result.out ≡ replicate 663552 0 }
    {
        Dlx1Room {
            text: Text::new(),
            cells: [0; 16384],
            work: [0; 8192],
            out: [0; Dlx1Room::MOST],
        }
    }

    // Writes what `dlx1` prints for the text that is read, all at once; where a write fails, a beginning of it. What else the room holds afterwards is free.
    pub fn print<W: Write>(&mut self, writer: &mut W) -> io::Result<()>
        ensures ok { let text = self.old.text in
            OnOk result (Appends (W.contents writer.old) (W.contents writer.new) (dlx1_printed (take text.read text.bytes))) }
        ensures err { let text = self.old.text in
            OnErr result (AppendsFront (W.contents writer.old) (W.contents writer.new) (dlx1_printed (take text.read text.bytes))) }
        ensures text { self.new.text ≡ self.old.text }
        ensures right { TextPrintedRight }
    {
        let made = dlx_output::put_printed(
            self.text.as_slice(),
            &mut self.cells,
            &mut self.work,
            &mut self.out,
        );
        write_last(writer, &self.out[..made])
    }

    // A run of `dlx1`: reads a text, and writes what is printed for it.
    #[tactic(auto, using(crate::proofs::RunLaws::ran))]
    pub fn run<R: Read, W: Write>(&mut self, input: &mut R, output: &mut W) -> Result<(), Failure>
        ensures ran { Ran dlx1_printed (R.remaining input.old) (R.remaining input.new) (W.contents output.old) (W.contents output.new) result }
        ensures right { TextPrintedRight }
    {
        let read = self.text.read(input);
        let printed = self.print(output);
        ended(read, printed)
    }
}
