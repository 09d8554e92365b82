// Readers and writers that give and take little at a time, or fail.
use std::io;
use std::io::{ErrorKind, Read, Write};

// Gives a byte at each read.
#[derive(Drop)]
pub struct Sipping<'a> {
    pub left: &'a [u8],
}

impl Read for Sipping<'_> {
    fn read(&mut self, buf: &mut [u8]) -> io::Result<usize> {
        if buf.is_empty() {
            return Ok(0);
        }
        self.left.read(&mut buf[..1])
    }
}

// Each read fails.
#[derive(Drop)]
pub struct Failing;

impl Read for Failing {
    fn read(&mut self, _buf: &mut [u8]) -> io::Result<usize> {
        Err(io::Error::from(ErrorKind::Other))
    }
}

// Hands on a byte at each write.
#[derive(Drop)]
pub struct Trickling<'a, W> {
    pub to: &'a mut W,
}

impl<W: Write> Write for Trickling<'_, W> {
    fn write(&mut self, buf: &[u8]) -> io::Result<usize> {
        if buf.is_empty() {
            return Ok(0);
        }
        self.to.write(&buf[..1])
    }

    fn flush(&mut self) -> io::Result<()> {
        self.to.flush()
    }
}

// Hands on so many bytes more, and then fails.
#[derive(Drop)]
pub struct Filling<'a, W> {
    pub to: &'a mut W,
    pub room: usize,
}

impl<W: Write> Write for Filling<'_, W> {
    fn write(&mut self, buf: &[u8]) -> io::Result<usize> {
        if self.room == 0 {
            return Err(io::Error::from(ErrorKind::StorageFull));
        }
        let most = buf.len().min(self.room);
        let taken = self.to.write(&buf[..most])?;
        self.room -= taken;
        Ok(taken)
    }

    fn flush(&mut self) -> io::Result<()> {
        self.to.flush()
    }
}

// Hands on what it takes, and fails at the end.
#[derive(Drop)]
pub struct Unflushed<'a, W> {
    pub to: &'a mut W,
}

impl<W: Write> Write for Unflushed<'_, W> {
    fn write(&mut self, buf: &[u8]) -> io::Result<usize> {
        self.to.write(buf)
    }

    fn flush(&mut self) -> io::Result<()> {
        Err(io::Error::from(ErrorKind::StorageFull))
    }
}

// Is interrupted at every other write.
#[derive(Drop)]
pub struct Interrupted<'a, W> {
    pub to: &'a mut W,
    pub is_next: bool,
}

impl<W: Write> Write for Interrupted<'_, W> {
    fn write(&mut self, buf: &[u8]) -> io::Result<usize> {
        self.is_next = !self.is_next;
        if !self.is_next {
            return Err(io::Error::from(ErrorKind::Interrupted));
        }
        self.to.write(buf)
    }

    fn flush(&mut self) -> io::Result<()> {
        self.to.flush()
    }
}
