//! A connection as the loop sees it.
ghost use Rattle.std.specs.Prelude.{◌≡◌, ◌≢◌, ◌≤◌, IfOk, IfSome, None, length};
ghost use Rattle.lz_serve.specs.Streams.{MayTake, Receives, Takes, counted, sent};

use crate::language::Language;
use crate::sight::Sight;
use lz_proto::Request;
use lz_resp::Cleared;
use lz_slot::Key;
use std::io;
use std::io::ErrorKind;

/// What a receiving gave.
#[derive(Clone, Copy, Debug, PartialEq, Eq)]
pub enum Received {
    /// So many bytes, one at least.
    Count(usize),
    /// Nothing yet.
    Later,
    /// The client's text has ended.
    Over,
    /// The connection is lost.
    Failed,
}

impl Received {
    /// What a read of so many bytes at most gave. None where it is to be made again.
    pub(crate) fn of(read: io::Result<usize>, most: usize) -> Option<Received>
        requires { IfOk read (λ count. count ≤ most) }
        ensures bound { IfSome result (λ received. counted received ≤ most) }
        ensures some { IfSome result (λ received. received ≢ Received.Count 0) }
    {
        match read {
            Ok(0) => Some(Received::Over),
            Ok(count) => Some(Received::Count(count)),
            Err(error) => match error.kind() {
                ErrorKind::WouldBlock => Some(Received::Later),
                ErrorKind::Interrupted => None,
                _ => Some(Received::Failed),
            },
        }
    }
}

/// How much of a text was taken.
#[derive(Clone, Copy, Debug, PartialEq, Eq)]
pub enum Taken {
    /// So many bytes, one at least.
    Count(usize),
    /// Nothing yet.
    Later,
    /// The connection is lost.
    Failed,
}

impl Taken {
    /// What a write of so many bytes at most gave. None where it is to be made again.
    pub(crate) fn of(write: io::Result<usize>, most: usize) -> Option<Taken>
        requires { IfOk write (λ count. count ≤ most) }
        ensures bound { IfSome result (λ taken. sent taken ≤ most) }
        ensures some { IfSome result (λ taken. taken ≢ Taken.Count 0) }
    {
        match write {
            Ok(0) => Some(Taken::Failed),
            Ok(count) => Some(Taken::Count(count)),
            Err(error) => match error.kind() {
                ErrorKind::WouldBlock => Some(Taken::Later),
                ErrorKind::Interrupted => None,
                _ => Some(Taken::Failed),
            },
        }
    }
}

/// A connection whose calls don't wait. What is sent on it may be nothing but what its client's session tells: `take` requires that.
pub trait Stream: Drop {
    ghost use Rattle.std.specs.Prelude.{List, Option};
    ghost use Rattle.lz_serve.specs.Grants.{Grant};
    ghost use Rattle.lz_serve.specs.Listings.{Listing};
    ghost use Rattle.lz_serve.specs.Streams.{Traffic};

    /// What came and went, where that is known.
    ghost traffic: { Self → Option Traffic };

    /// What is so of the replies that are told on it, in their order.
    ghost promised: { List Grant → Type 0 };

    /// What is so of the pages that are told on it.
    ghost listed: { Listing → Type 0 };

    /// That its service was asked to stop: then what wasn't begun is refused on it.
    ghost asked: { Type 0 };

    /// The language of its client.
    fn language(&self) -> Language
        ensures { IfSome (traffic self.now) (λ t. result ≡ t.spoken) };

    /// Puts what the client has sent next at the front of the buffer.
    fn receive(&mut self, buffer: &mut [u8]) -> Received
        ensures length { length buffer.new ≡ length buffer.old }
        ensures bound { counted result ≤ length buffer.new }
        ensures some { result ≢ Received.Count 0 }
        ensures received { Receives (traffic self.old) (traffic self.new) result buffer.new };

    /// The next request that it hands over by itself, beside its text, if there is one. Its reply is worded as that of a frame with this key alone.
    fn next_request(&mut self) -> Option<Request>
        ensures known { IfSome (traffic self.old) (λ _. result ≡ None) }
        ensures traffic { traffic self.new ≡ traffic self.old }
        ensures asks { IfSome result (λ request. request ≢ Request.Quit) };

    /// Sends a beginning of the text.
    fn take(&mut self, text: &[u8]) -> Taken
        requires { MayTake promised listed asked (traffic self.old) text.now }
        ensures bound { sent result ≤ length text.now }
        ensures some { result ≢ Taken.Count 0 }
        ensures taken { Takes (traffic self.old) (traffic self.new) result text.now };

    /// Has this room cleared, and tells what came of it, once that is known. None until then: its client asks again.
    fn clear(&mut self, room: u8) -> Option<Cleared>
        ensures { traffic self.new ≡ traffic self.old };

    /// The key of which it seeks to know whether that is a member, if there is one. It stalls until `see`.
    fn sought(&self) -> Option<Key>;

    /// Takes what a pass saw of that key, or none where none could be had, and says whether the connection stands.
    fn see(&mut self, sight: Option<Sight>) -> bool
        ensures { traffic self.new ≡ traffic self.old };

    /// Whether something can be received of which no poller tells.
    fn has_come(&self) -> bool;

    /// Whether it waits for what no poller tells of: its client is tended to in each turn.
    fn stalls(&self) -> bool;

    /// Says that nothing more will be sent.
    fn leave(&mut self)
        ensures { traffic self.new ≡ traffic self.old };
}
