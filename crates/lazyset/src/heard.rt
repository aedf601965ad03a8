//! A writer that remembers the line which was written last.
ghost use Rattle.std.specs.Prelude.{◌≡◌};

use std::io;
use std::io::Write;

// Longer than any line that has words of its own.
const MOST_HEARD: usize = 32;

/// Writes on, and remembers the beginning of the line that was written last. What it was given is what the writer under it was given.
#[derive(Drop)]
pub struct Heard<W: Write> {
    writer: W,
    line: [u8; MOST_HEARD],
    length: usize,
    is_whole: bool,
}

impl<W: Write> Heard<W> {
    pub fn new(writer: W) -> Heard<W>
        ensures { result.writer ≡ writer }
    {
        Heard {
            writer,
            line: [0; MOST_HEARD],
            length: 0,
            is_whole: false,
        }
    }

    /// The line that was written last, or its beginning, where one was written at all.
    pub fn line(&self) -> Option<&str> {
        str::from_utf8(self.line.get(..self.length)?).ok()
    }

    fn hear_all(&mut self, bytes: &[u8])
        ensures { self.new.writer ≡ self.old.writer }
    {
        for byte in bytes {
            self.hear(*byte);
        }
    }

    fn hear(&mut self, byte: u8)
        ensures { self.new.writer ≡ self.old.writer }
    {
        if byte == b'\n' {
            self.is_whole = true;
            return;
        }
        if self.is_whole {
            self.is_whole = false;
            self.length = 0;
        }
        if let Some(place) = self.line.get_mut(self.length) {
            *place = byte;
            self.length += 1;
        }
    }
}

impl<W: Write> Write for Heard<W> {
    ghost contents = { λ heard. W.contents heard.writer };

    fn write(&mut self, bytes: &[u8]) -> io::Result<usize> {
        let count = self.writer.write(bytes)?;
        self.hear_all(&bytes[..count]);
        Ok(count)
    }

    fn flush(&mut self) -> io::Result<()> {
        self.writer.flush()
    }
}
