// A text read from a reader, and what `pack`, `dlx1` or `catalogue` prints for it written to a writer.
//
// Every function here is proved: of a reader whose bytes are known (`Read::remaining`) and a writer whose bytes are known (`Write::contents`) the contracts
// say which bytes are read and which are written. That a read fails, or a write, only the world can know: a body that gives up with an error meets them too,
// and is for the runs of the crate `runs`.
#![tactic(auto)]

mod catalogue_room;
mod dlx1_room;
mod failure;
mod room;
mod text;

ghost use Rattle.std.specs.Prelude.{◌≤◌, ◌<◌, ◌≡◌, ◌≢◌, length, take, drop, IfOk, IfErr, OnOk, OnErr};
ghost use Rattle.std.specs.Io.KnownBytes.{Appends, Consumes, IsAtEnd, Keeps};
ghost use Rattle.std.specs.IoError.{error_kind};
ghost use Rattle.definitions.specs.EmptyBox.{EmptyBoxPrinted};
ghost use Rattle.definitions.specs.Files.{packed};
ghost use Rattle.definitions.specs.Printed.{PrintedRight};
ghost use Rattle.definitions.specs.Woods.{OneWoodPrinted};
ghost use Rattle.streams.specs.Printing.{Lent};
ghost use Rattle.streams.specs.Reading.{Takes};
ghost use Rattle.streams.specs.Writing.{AppendsFront};

pub use catalogue_room::CatalogueRoom;
pub use dlx1_room::Dlx1Room;
pub use failure::{Failure, report};
use output::{Progress, Stretch};
pub use room::Room;
use std::io;
use std::io::{ErrorKind, Read, Write};
pub use text::Text;

// One read behind the first n bytes of a text, which stay as they are; and how many bytes of the text are read then.
fn read_more<R: Read>(input: &mut R, text: &mut [u8], n: usize) -> io::Result<usize>
    requires { n ≤ length text.old }
    ensures kept { take n text.new ≡ take n text.old }
    ensures within { IfOk result (λ m. (n ≤ m) × (m ≤ length text.new)) }
    ensures bytes { IfOk result (λ m. Consumes (R.remaining input.old) (R.remaining input.new) (drop n (take m text.new))) }
    ensures end { IfOk result (λ m. n < length text.new → m ≡ n → IsAtEnd (R.remaining input.new)) }
{
    let got = input.read(&mut text[n..])?;
    Ok(n + got)
}

// Reads until the input ends or the slice is full, and answers how many bytes are read. A read that fails ends it, and is no end of the input. Of the slice
// behind what is read nothing is said, and where a read fails nothing of any of it.
pub fn read_text<R: Read>(input: &mut R, text: &mut [u8]) -> io::Result<usize>
    ensures within { IfOk result (λ n. n ≤ length text.new) }
    ensures bytes { IfOk result (λ n. Takes (length text.new) (R.remaining input.old) (R.remaining input.new) (take n text.new)) }
{
    let mut n = 0;
    // the first n bytes are the input's
    while n < text.len() {
        let next = read_more(input, text, n)?;
        if next == n {
            return Ok(n);
        }
        n = next;
    }
    Ok(n)
}

// One write of what lies behind the first `done` bytes; and how many bytes are written then: no more where the write was interrupted.
fn write_more<W: Write>(writer: &mut W, bytes: &[u8], done: usize) -> io::Result<usize>
    requires { done ≤ length bytes.now }
    ensures within { IfOk result (λ n. (done ≤ n) × (n ≤ length bytes.now)) }
    ensures bytes { IfOk result (λ n. Appends (W.contents writer.old) (W.contents writer.new) (drop done (take n bytes.now))) }
    ensures err { OnErr result (Keeps (W.contents writer.old) (W.contents writer.new)) }
    ensures retried { IfErr result (λ why. error_kind why ≢ ErrorKind.Interrupted) }
{
    match writer.write(&bytes[done..]) {
        Ok(taken) => {
            if taken == 0 && done < bytes.len() {
                return Err(io::Error::from(ErrorKind::WriteZero));
            }
            Ok(done + taken)
        }
        Err(why) => {
            if why.kind() == ErrorKind::Interrupted {
                return Ok(done);
            }
            Err(why)
        }
    }
}

// Writes all the bytes, or a beginning of them where a write fails. (std's `write_all` does not say what was written before it failed.)
fn write_whole<W: Write>(writer: &mut W, bytes: &[u8]) -> io::Result<()>
    ensures ok { OnOk result (Appends (W.contents writer.old) (W.contents writer.new) bytes.now) }
    ensures err { OnErr result (AppendsFront (W.contents writer.old) (W.contents writer.new) bytes.now) }
{
    let mut done = 0;
    // the first `done` bytes are written
    for _ in 0..u64::MAX {
        if done == bytes.len() {
            return Ok(());
        }
        done = write_more(writer, bytes, done)?;
    }
    Err(io::Error::from(ErrorKind::Interrupted))
}

// Writes the last bytes of an output: all of them, or a beginning of them where a write fails; what the writer may hold back goes out too.
fn write_last<W: Write>(writer: &mut W, bytes: &[u8]) -> io::Result<()>
    ensures ok { OnOk result (Appends (W.contents writer.old) (W.contents writer.new) bytes.now) }
    ensures err { OnErr result (AppendsFront (W.contents writer.old) (W.contents writer.new) bytes.now) }
{
    write_whole(writer, bytes)?;
    writer.flush()
}

// Writes what `pack` prints for a text, stretch by stretch. A write that fails ends it: then a beginning of it is written. What the slices hold afterwards is
// free, but that each is as long as it was.
// (The slices stand one by one, as `step` takes them: some are only read further down, and a struct of them would be taken apart at
// each step. `Room` holds them together.)
#[tactic(auto, using(crate::proofs::PrintLaws::printed_right))]
pub fn print<W: Write>(
    writer: &mut W,
    text: &[u8],
    cells: &mut [u8],
    answers: &mut [u8],
    work: &mut [u64],
    links: &mut [u16],
    out: &mut [u8],
) -> io::Result<()>
    requires { Lent cells.old answers.old work.old links.old out.old }
    ensures ok { OnOk result (Appends (W.contents writer.old) (W.contents writer.new) (packed text.now)) }
    ensures err { OnErr result (AppendsFront (W.contents writer.old) (W.contents writer.new) (packed text.now)) }
    ensures right { PrintedRight × EmptyBoxPrinted × OneWoodPrinted }
{
    let mut progress = Progress::Unbegun;
    // what is written already, and then what is still to be printed, is what is to be printed for the text
    loop {
        let Stretch { made, next } = output::step(
            text, &progress, cells, answers, work, links, out,
        );
        let Some(further) = next else {
            return write_last(writer, &out[..made]);
        };
        write_whole(writer, &out[..made])?;
        progress = further;
    }
}
