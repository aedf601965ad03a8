//! A file that is read from its beginning to its end.
ghost use Rattle.std.specs.Prelude.{◌≡◌};

use crate::share::Share;
use lz_disk::Cause;
use std::io;
use std::io::{ErrorKind, Read, Seek};
use std::time::Clock;

/// Reads a file, says how much of it was read, and remembers why a read failed. What it gives is what the file gives.
#[derive(Drop)]
pub struct Source<'a, 'b, R: Eprint + Clock, F: Read> {
    file: F,
    share: Share<'a, 'b, R>,
    /// The system's number for why.
    cause: Option<i32>,
}

impl<'a, 'b, R: Eprint + Clock, F: Read> Source<'a, 'b, R, F> {
    pub fn new(file: F, share: Share<'a, 'b, R>) -> Source<'a, 'b, R, F>
        ensures { result.file ≡ file }
    {
        Source {
            file,
            share,
            cause: None,
        }
    }

    /// It was read as far as it will be. Why a read failed, where the system said so.
    pub fn end(&mut self) -> Option<Cause> {
        self.share.end();
        self.cause.map(Cause::System)
    }
}

impl<R: Eprint + Clock, F: Read + Seek> Source<'_, '_, R, F> {
    /// It is read from its beginning again.
    pub fn rewind(&mut self) -> io::Result<()> {
        self.file.rewind()
    }
}

impl<R: Eprint + Clock, F: Read> Read for Source<'_, '_, R, F> {
    ghost remaining = { λ source. F.remaining source.file };

    fn read(&mut self, buffer: &mut [u8]) -> io::Result<usize> {
        match self.file.read(buffer) {
            Ok(count) => {
                self.share.add(count);
                Ok(count)
            }
            Err(error) => {
                if error.kind() != ErrorKind::Interrupted {
                    self.cause = error.raw_os_error();
                }
                Err(error)
            }
        }
    }
}
