// Streams in memory that are harder to use than a slice or a `Vec`.
use std::alloc::Global;
use std::io;
use std::io::{ErrorKind, Read, Write};

// Gives three bytes at a time, and is interrupted before each.
#[derive(Drop)]
pub struct Halting<'a> {
    pub rest: &'a [u8],
    pub halts: bool,
}

impl<'a> Read for Halting<'a> {
    fn read(&mut self, buf: &mut [u8]) -> io::Result<usize> {
        self.halts = !self.halts;
        if self.halts {
            return Err(io::Error::from(ErrorKind::Interrupted));
        }
        let room = buf.len().min(3);
        self.rest.read(&mut buf[..room])
    }
}

// Takes three bytes at a time, and has room for so many.
#[derive(Drop)]
pub struct Narrow {
    pub got: Vec<u8>,
    room: usize,
}

impl Write for Narrow {
    fn write(&mut self, buf: &[u8]) -> io::Result<usize> {
        let count = buf.len().min(3).min(self.room);
        self.got.extend_from_slice(&buf[..count])?;
        self.room -= count;
        Ok(count)
    }

    fn flush(&mut self) -> io::Result<()> {
        Ok(())
    }
}

pub fn with_room(heap: Global, room: usize) -> Narrow {
    Narrow {
        got: Vec::new(heap),
        room,
    }
}

// Takes all that it is handed, and counts how often.
#[derive(Default, Drop)]
pub struct Counting {
    pub writes: usize,
}

impl Write for Counting {
    fn write(&mut self, buf: &[u8]) -> io::Result<usize> {
        self.writes = self.writes.saturating_add(1);
        Ok(buf.len())
    }

    fn flush(&mut self) -> io::Result<()> {
        Ok(())
    }
}
