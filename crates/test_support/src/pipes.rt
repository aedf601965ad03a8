//! Readers and writers that fail.
use std::alloc::Global;
use std::io;
use std::io::{ErrorKind, Read, Write};

/// Gives its text so many bytes at a time, and then ends, or fails.
#[derive(Drop)]
pub struct Slow<'a> {
    pub text: &'a [u8],
    pub step: usize,
    pub fails: bool,
}

impl<'a> Read for Slow<'a> {
    fn read(&mut self, buffer: &mut [u8]) -> io::Result<usize> {
        if self.text.is_empty() && self.fails {
            return Err(io::Error::from(ErrorKind::Other));
        }
        let count = self.step.min(self.text.len()).min(buffer.len());
        let (given, rest) = self.text.split_at(count);
        buffer[..count].copy_from_slice(given);
        self.text = rest;
        Ok(count)
    }
}

/// Takes so many bytes, and then fails.
#[derive(Drop)]
pub struct Narrow {
    pub taken: Vec<u8>,
    pub room: usize,
}

impl Narrow {
    /// One that takes so many bytes.
    pub fn new(alloc: Global, room: usize) -> Narrow {
        Narrow {
            taken: Vec::new(alloc),
            room,
        }
    }
}

impl Write for Narrow {
    fn write(&mut self, bytes: &[u8]) -> io::Result<usize> {
        if bytes.is_empty() {
            return Ok(0);
        }
        if self.room == 0 {
            return Err(io::Error::from(ErrorKind::Other));
        }
        if self.taken.push(bytes[0]).is_err() {
            return Err(io::Error::from(ErrorKind::OutOfMemory));
        }
        self.room -= 1;
        Ok(1)
    }

    fn flush(&mut self) -> io::Result<()> {
        Ok(())
    }
}
