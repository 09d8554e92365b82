// A text that is read, in fixed memory.
ghost use Rattle.std.specs.Prelude.{◌≡◌, ◌≤◌, OnOk, OnErr, replicate, take};
ghost use Rattle.streams.specs.Reading.{Takes};

use super::read_text;
use std::io;
use std::io::Read;

// Room for a byte more than the longest file, and how many of its bytes are read.
#[derive(Drop)]
pub struct Text {
    bytes: [u8; Text::MOST],
    read: usize,
    ghost within: { read ≤ 16385 },
}

impl Text {
    // How many bytes of a text there is room for.
    const MOST: usize = 16385;

    pub fn new() -> Text
        ensures bytes { result.bytes ≡ replicate 16385 0 }
        ensures read { result.read ≡ 0 }
    {
        Text {
            bytes: [0; Text::MOST],
            read: 0,
        }
    }

    // Reads a text in place of the one before: all that is left of the input, or as much as there is room for, which is more than the longest file has. Where
    // a read fails no text is held, which is no file and no request.
    pub fn read<R: Read>(&mut self, input: &mut R) -> io::Result<()>
        ensures ok { OnOk result (Takes 16385 (R.remaining input.old) (R.remaining input.new) (take self.new.read self.new.bytes)) }
        ensures err { OnErr result (self.new.read ≡ 0) }
    {
        self.read = 0;
        self.read = read_text(input, &mut self.bytes)?;
        Ok(())
    }

    // What is read.
    pub fn as_slice(&self) -> &[u8]
        ensures { result.now ≡ take self.now.read self.now.bytes }
    {
        &self.bytes[..self.read]
    }
}
