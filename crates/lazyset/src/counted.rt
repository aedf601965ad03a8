//! A reader whose lines are counted.
ghost use Rattle.std.specs.Prelude.{◌≡◌};

use std::io;
use std::io::Read;

/// Reads on, and counts the line feeds. What it gives is what the reader under it gives.
#[derive(Drop)]
pub struct Counted<R: Read> {
    reader: R,
    lines: u64,
}

impl<R: Read> Counted<R> {
    pub fn new(reader: R) -> Counted<R>
        ensures { result.reader ≡ reader }
    {
        Counted { reader, lines: 0 }
    }

    /// How many lines have ended.
    pub fn lines(&self) -> u64 {
        self.lines
    }

    fn count_in(&mut self, bytes: &[u8])
        ensures { self.new.reader ≡ self.old.reader }
    {
        for byte in bytes {
            if *byte == b'\n' {
                self.lines = self.lines.saturating_add(1);
            }
        }
    }
}

impl<R: Read> Read for Counted<R> {
    ghost remaining = { λ counted. R.remaining counted.reader };

    fn read(&mut self, buffer: &mut [u8]) -> io::Result<usize> {
        let count = self.reader.read(buffer)?;
        self.count_in(&buffer[..count]);
        Ok(count)
    }
}
