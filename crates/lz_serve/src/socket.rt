//! A connection of a loop: one of the system's sockets, or one in memory by which the service is its own client.
ghost use Rattle.std.specs.Prelude.{◌≡◌, ◌≢◌, ◌≤◌, length};
ghost use Rattle.lz_serve.specs.Streams.{counted, sent};

use crate::clearing::Clearings;
use crate::forgetting::{Kept, Spoken};
use crate::language::Language;
use crate::lease::Tether;
use crate::loads::Loads;
use crate::outlet::Outlet;
use crate::sight::Sight;
use crate::stream::{Received, Stream, Taken};
use lz_proto::Request;
use lz_resp::{Cleared, Clearing};
use lz_slot::Key;
use std::sync::Wait;

/// What a connection goes over.
#[derive(Drop)]
pub(crate) enum Carrier<'a, R, T: Tether> {
    Socket(Outlet<'a, R, T>),
    /// Memory: its client is the service itself, which clears a room.
    Memory(Clearing),
    /// The same, once it was told what it can't go on with, after so many keys were removed.
    Broken(usize),
    /// A socket whose client speaks to a set that forgets.
    Spoken(Spoken<'a, R, T>),
    /// Memory: its client is the service itself, which keeps epochs.
    Kept(Kept<'a>),
}

impl<R, T: Tether> Carrier<'_, R, T> {
    // Whether its client isn't the service itself.
    fn is_of_client(&self) -> bool {
        matches!(self, Carrier::Socket(_) | Carrier::Spoken(_))
    }
}

/// A connection whose calls don't wait.
pub struct Socket<'a, R, T: Tether> {
    carrier: Carrier<'a, R, T>,
    language: Language,
    loads: &'a Loads,
    index: usize,
    clearings: &'a Clearings,
    /// Its client has asked for a clearing, and wasn't told what came of it.
    awaits: bool,
}

impl<'a, R, T: Tether> Socket<'a, R, T> {
    /// One that goes over this, which this loop has, for all loops to see.
    pub(crate) fn new(
        carrier: Carrier<'a, R, T>,
        language: Language,
        loads: &'a Loads,
        index: usize,
        clearings: &'a Clearings,
    ) -> Socket<'a, R, T> {
        if carrier.is_of_client() {
            loads.add(index);
        }
        Socket {
            carrier,
            language,
            loads,
            index,
            clearings,
            awaits: false,
        }
    }
}

impl<'a, R, T: Tether> Drop for Socket<'a, R, T> {
    fn drop(self) {
        if self.carrier.is_of_client() {
            self.loads.take_off(self.index);
        }
        if self.awaits {
            self.clearings.forget();
        }
        match &self.carrier {
            Carrier::Socket(_) | Carrier::Spoken(_) | Carrier::Kept(_) => {}
            Carrier::Memory(clearing) => {
                self.clearings.end(clearing.is_over(), clearing.removed());
            }
            Carrier::Broken(removed) => self.clearings.end(false, *removed),
        }
        let Socket {
            carrier: _,
            language: _,
            loads: _,
            index: _,
            clearings: _,
            awaits: _,
        } = self;
    }
}

impl<'a, R: Wait, T: Tether> Stream for Socket<'a, R, T> {
    ghost use Rattle.std.specs.Prelude.{None, ⊤};

    ghost traffic = { λ _. None };

    ghost promised = { λ _. ⊤ };

    ghost listed = { λ _. ⊤ };

    ghost asked = { ⊤ };

    fn language(&self) -> Language {
        self.language
    }

    fn receive(&mut self, buffer: &mut [u8]) -> Received {
        match &mut self.carrier {
            Carrier::Socket(outlet) => receive_at(outlet, buffer),
            Carrier::Memory(clearing) => read_from(clearing, buffer),
            Carrier::Broken(_) => Received::Failed,
            Carrier::Spoken(spoken) => spoken.receive(buffer),
            Carrier::Kept(kept) => kept.receive(buffer),
        }
    }

    fn next_request(&mut self) -> Option<Request> {
        match &mut self.carrier {
            Carrier::Spoken(spoken) => spoken.next_request(),
            _ => None,
        }
    }

    fn take(&mut self, text: &[u8]) -> Taken {
        match &mut self.carrier {
            Carrier::Socket(outlet) => take_at(outlet, text),
            Carrier::Memory(_) if text.is_empty() => Taken::Later,
            Carrier::Memory(clearing) => {
                if clearing.hear(text).is_err() {
                    self.carrier = Carrier::Broken(clearing.removed());
                }
                Taken::Count(text.len())
            }
            Carrier::Broken(_) => Taken::Failed,
            Carrier::Spoken(spoken) => spoken.take(text),
            Carrier::Kept(kept) => kept.take(text),
        }
    }

    fn clear(&mut self, room: u8) -> Option<Cleared> {
        if !self.awaits {
            self.awaits = self.clearings.ask(room);
            return if self.awaits {
                None
            } else {
                Some(Cleared::Busy)
            };
        }
        let cleared = self.clearings.outcome()?;
        self.awaits = false;
        Some(cleared)
    }

    fn sought(&self) -> Option<Key> {
        match &self.carrier {
            Carrier::Spoken(spoken) => spoken.sought(),
            _ => None,
        }
    }

    fn see(&mut self, sight: Option<Sight>) -> bool {
        match &mut self.carrier {
            Carrier::Spoken(spoken) => spoken.see(sight),
            _ => true,
        }
    }

    // What the client in memory asks next comes of what it was told.
    fn has_come(&self) -> bool {
        match &self.carrier {
            Carrier::Socket(_) => false,
            Carrier::Memory(clearing) => clearing.is_over() || !clearing.unsent().is_empty(),
            Carrier::Broken(_) => true,
            Carrier::Spoken(spoken) => spoken.has_come(),
            Carrier::Kept(kept) => kept.has_come(),
        }
    }

    // Epochs end in their time, whatever comes.
    fn stalls(&self) -> bool {
        match &self.carrier {
            Carrier::Spoken(spoken) => spoken.stalls(),
            Carrier::Kept(_) => true,
            Carrier::Socket(_) | Carrier::Memory(_) | Carrier::Broken(_) => false,
        }
    }

    fn leave(&mut self) {
        match &mut self.carrier {
            Carrier::Socket(outlet) => outlet.shut(),
            Carrier::Spoken(spoken) => spoken.leave(),
            Carrier::Kept(kept) => kept.leave(),
            Carrier::Memory(_) | Carrier::Broken(_) => {}
        }
    }
}

/// Receives what a socket has.
pub(crate) fn receive_at<R, T: Tether>(outlet: &mut Outlet<'_, R, T>, buffer: &mut [u8]) -> Received
    ensures length { length buffer.new ≡ length buffer.old }
    ensures bound { counted result ≤ length buffer.new }
    ensures some { result ≢ Received.Count 0 }
{
    'tries: for _ in 0..u64::MAX {
        let read = outlet.read(buffer);
        if let Some(received) = Received::of(read, buffer.len()) {
            return received;
        }
    }
    Received::Failed
}

/// Sends a beginning of a text on a socket. Where the lease is lost, the connection is too.
pub(crate) fn take_at<R: Wait, T: Tether>(outlet: &mut Outlet<'_, R, T>, text: &[u8]) -> Taken
    ensures bound { sent result ≤ length text.now }
    ensures some { result ≢ Taken.Count 0 }
{
    'tries: for _ in 0..u64::MAX {
        let Some(leave) = outlet.leave() else {
            return Taken::Failed;
        };
        if let Some(taken) = Taken::of(outlet.send(text, leave), text.len()) {
            return taken;
        }
    }
    Taken::Failed
}

// Receives what a clearing asks next: nothing yet while its last request isn't answered, and nothing more once the room was gone through.
fn read_from(clearing: &mut Clearing, buffer: &mut [u8]) -> Received
    ensures length { length buffer.new ≡ length buffer.old }
    ensures bound { counted result ≤ length buffer.new }
    ensures some { result ≢ Received.Count 0 }
{
    if clearing.is_over() {
        return Received::Over;
    }
    let count = clearing.unsent().len().min(buffer.len());
    if count == 0 {
        return Received::Later;
    }
    buffer[..count].copy_from_slice(&clearing.unsent()[..count]);
    clearing.sent(count);
    Received::Count(count)
}
