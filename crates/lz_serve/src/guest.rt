//! A connection that a thread has to itself: its calls wait.
ghost use Rattle.std.specs.Prelude.{◌≡◌};

use crate::language::Language;
use crate::observer::Observer;
use crate::sight::Sight;
use crate::stream::{Received, Stream, Taken};
use lz_proto::Request;
use lz_resp::Cleared;
use lz_slot::Key;
use std::io::{Read, Write};
use std::net::{Shutdown, TcpStream};
use std::time::Duration;

// For how many seconds a read or a write waits before it sees whether the service is to end.
const PATIENCE_S: u64 = 1;

/// A connection whose calls wait until something came or went, its client was idle for too long, or the service is to end.
#[derive(Drop)]
pub(crate) struct Guest<'a, O: Observer> {
    stream: &'a TcpStream,
    observer: &'a O,
    /// After how many waits for nothing the client is idle.
    most: Option<u64>,
}

impl<'a, O: Observer> Guest<'a, O> {
    pub(crate) fn new(
        stream: &'a TcpStream,
        observer: &'a O,
        idle: Option<Duration>,
    ) -> Guest<'a, O> {
        let patience = Some(Duration::from_secs(PATIENCE_S));
        // Where no time can be set a call waits without an end.
        let _ = stream.set_read_timeout(patience);
        let _ = stream.set_write_timeout(patience);
        // A reply goes out at once; where that can't be asked for it may go out later.
        let _ = stream.set_nodelay(true);
        Guest {
            stream,
            observer,
            most: idle.map(|idle| idle.as_secs().checked_div(PATIENCE_S).unwrap_or(0)),
        }
    }

    // A call has waited for nothing, after so many others. Whether it is made again.
    fn goes_on(&self, waits: u64) -> bool {
        self.observer.crowded();
        !self.observer.stops() && self.most.is_none_or(|most| waits.saturating_add(1) < most)
    }
}

impl<O: Observer> Stream for Guest<'_, O> {
    ghost use Rattle.std.specs.Prelude.{None, ⊤};

    ghost traffic = { λ _. None };

    ghost promised = { λ _. ⊤ };

    ghost listed = { λ _. ⊤ };

    ghost asked = { ⊥ };

    fn language(&self) -> Language {
        Language::Lines
    }

    fn receive(&mut self, buffer: &mut [u8]) -> Received {
        let mut stream = self.stream;
        for waits in 0..u64::MAX {
            let read = stream.read(buffer);
            match Received::of(read, buffer.len()) {
                None => {}
                Some(Received::Later) if self.goes_on(waits) => {}
                Some(Received::Later) => break,
                Some(received) => return received,
            }
        }
        Received::Failed
    }

    fn next_request(&mut self) -> Option<Request> {
        None
    }

    fn take(&mut self, text: &[u8]) -> Taken {
        let mut stream = self.stream;
        for waits in 0..u64::MAX {
            match Taken::of(stream.write(text), text.len()) {
                None => {}
                Some(Taken::Later) if self.goes_on(waits) => {}
                Some(Taken::Later) => break,
                Some(taken) => return taken,
            }
        }
        Taken::Failed
    }

    // A line asks for no such thing.
    fn clear(&mut self, _room: u8) -> Option<Cleared> {
        Some(Cleared::Stopped(0))
    }

    fn sought(&self) -> Option<Key> {
        None
    }

    fn see(&mut self, _sight: Option<Sight>) -> bool {
        true
    }

    fn has_come(&self) -> bool {
        false
    }

    fn stalls(&self) -> bool {
        false
    }

    fn leave(&mut self) {
        let _ = self.stream.shutdown(Shutdown::Write);
    }
}
