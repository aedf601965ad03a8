//! Connections in memory. A seed says when one can be read or written, and in which pieces.
ghost use Rattle.std.specs.Prelude.{◌≡◌, ◌≢◌, ◌≤◌, ◌<◌, length};
ghost use Rattle.lz_serve.specs.Streams.{counted, sent};

use lz_proto::Request;
use lz_resp::Cleared;
use lz_serve::{Language, Poller, Ready, Received, Sight, Stream, Taken};
use lz_slot::Key;
use std::alloc::Global;
use std::cell::RefCell;
use std::io;
use std::time::Duration;

/// The client's end of a connection: its text, how much of that was read, and what it was told.
#[derive(Drop)]
pub struct Side {
    pub text: Vec<u8>,
    pub read: usize,
    pub told: Vec<u8>,
    pub is_left: bool,
}

/// All connections, with the seed.
#[derive(Drop)]
pub struct Network {
    pub sides: Vec<Side>,
    pub seed: u64,
}

impl Network {
    // A number below this one.
    fn chance(&mut self, below: u64) -> u64
        requires { 0 < below }
        ensures { result < below }
    {
        self.seed = self
            .seed
            .wrapping_mul(6_364_136_223_846_793_005)
            .wrapping_add(1_442_695_040_888_963_407);
        (self.seed >> 33) % below
    }

    fn receive(&mut self, index: usize, buffer: &mut [u8]) -> Received
        ensures bound { counted result ≤ length buffer.new }
        ensures some { result ≢ Received.Count 0 }
    {
        let most = self.chance(12) as usize;
        let Some(side) = self.sides.get_mut(index) else {
            return Received::Failed;
        };
        let rest = side.text.get(side.read..).unwrap_or(b"");
        if rest.is_empty() {
            return Received::Over;
        }
        let count = most.min(rest.len()).min(buffer.len());
        if count == 0 {
            return Received::Later;
        }
        buffer[..count].copy_from_slice(&rest[..count]);
        side.read = side.read.wrapping_add(count);
        Received::Count(count)
    }

    fn take(&mut self, index: usize, text: &[u8]) -> Taken
        ensures bound { sent result ≤ length text.now }
        ensures some { result ≢ Taken.Count 0 }
    {
        let most = self.chance(9) as usize;
        let Some(side) = self.sides.get_mut(index) else {
            return Taken::Failed;
        };
        let count = most.min(text.len());
        if count == 0 {
            return Taken::Later;
        }
        if side.is_left || side.told.extend_from_slice(&text[..count]).is_err() {
            return Taken::Failed;
        }
        Taken::Count(count)
    }

    fn leave(&mut self, index: usize) {
        if let Some(side) = self.sides.get_mut(index) {
            side.is_left = true;
        }
    }
}

/// The server's end of a connection.
#[derive(Drop)]
pub struct Wire<'a> {
    network: &'a RefCell<Network>,
    index: usize,
}

impl<'a> Stream for Wire<'a> {
    ghost use Rattle.std.specs.Prelude.{None, ⊤};

    ghost traffic = { λ _. None };

    ghost promised = { λ _. ⊤ };

    ghost listed = { λ _. ⊤ };

    ghost asked = { ⊤ };

    fn language(&self) -> Language {
        Language::Lines
    }

    fn receive(&mut self, buffer: &mut [u8]) -> Received {
        match self.network.try_borrow_mut() {
            Ok(mut network) => network.receive(self.index, buffer),
            Err(_) => Received::Failed,
        }
    }

    fn next_request(&mut self) -> Option<Request> {
        None
    }

    fn take(&mut self, text: &[u8]) -> Taken {
        match self.network.try_borrow_mut() {
            Ok(mut network) => network.take(self.index, text),
            Err(_) => Taken::Failed,
        }
    }

    fn clear(&mut self, _room: u8) -> Option<Cleared> {
        Some(Cleared::Busy)
    }

    fn sought(&self) -> Option<Key> {
        None
    }

    fn see(&mut self, _sight: Option<Sight>) -> bool {
        true
    }

    fn has_come(&self) -> bool {
        false
    }

    fn stalls(&self) -> bool {
        false
    }

    fn leave(&mut self) {
        if let Ok(mut network) = self.network.try_borrow_mut() {
            network.leave(self.index);
        }
    }
}

/// Connections that come one after the other.
#[derive(Drop)]
pub struct Switch<'a> {
    pub network: &'a RefCell<Network>,
    pub next: usize,
    pub clients: usize,
    pub places: usize,
}

impl<'a> Poller for Switch<'a> {
    ghost came = { λ switch. switch.next };

    type Stream = Wire<'a>;

    fn poll(&mut self, _patience: Duration, ready: &mut Vec<Ready>) {
        let Ok(mut network) = self.network.try_borrow_mut() else {
            return;
        };
        for token in 0..self.places {
            if network.chance(2) == 0 {
                let _ = ready.push(Ready {
                    token,
                    drains: false,
                });
            }
        }
    }

    fn accept(&mut self, _token: usize) -> io::Result<Option<Wire<'a>>> {
        if self.next >= self.clients {
            return Ok(None);
        }
        let index = self.next;
        self.next += 1;
        Ok(Some(Wire {
            network: self.network,
            index,
        }))
    }

    fn is_full(&self) -> bool {
        false
    }
}

/// The end of a client that sends this text.
pub fn side_of(alloc: Global, text: Vec<u8>) -> Side {
    Side {
        text,
        read: 0,
        told: Vec::new(alloc),
        is_left: false,
    }
}
