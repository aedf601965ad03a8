//! What tells a loop of its connections.
use crate::stream::Stream;
use std::io;
use std::time::Duration;

/// A connection that can be read or written.
#[derive(Clone, Copy, Debug, PartialEq, Eq)]
pub struct Ready {
    pub token: usize,
    /// It is to be read until nothing comes, since nothing may tell of what is left: its client sends nothing more, or has sent a byte as
    /// urgent, before which a receiving stops short.
    pub drains: bool,
}

/// Connections that come, and those that can be read or written.
pub trait Poller {
    ghost use Rattle.std.specs.Prelude.{◌≤◌, ◌+◌, IfOk, IfSome, ℕ};
    ghost use Rattle.lz_serve.specs.Pollers.{handed_out};
    ghost use Rattle.lz_serve.specs.Streams.{IsFresh};

    /// How many connections have come, where that is told, and else 0.
    ghost came: { Self → ℕ };

    type Stream: Stream;

    /// Waits until a connection has come, or one can be read or written, but not for longer than so. Puts those that can be read or
    /// written at the end of `ready`: each of which that is so since its last `Later`, or, where it doesn't drain, since it gave less than there
    /// was room for.
    /// Where the system or memory fails it puts none, after a pause.
    fn poll(&mut self, patience: Duration, ready: &mut Vec<Ready>)
        ensures { came self.new ≤ came self.old };

    /// A connection that has come, if there is one, which has this token from now on. Its stream is dropped before another one gets
    /// the token. Where the system fails the connection may wait.
    fn accept(&mut self, token: usize) -> io::Result<Option<Self::Stream>>
        ensures fresh { IfOk result (λ given. IfSome given (λ stream. IsFresh (Self.Stream.traffic stream))) }
        ensures came { came self.new ≤ came self.old + handed_out result };

    /// Whether as many clients are connected as may be: then `accept` gives none but the service itself, for which places are left.
    fn is_full(&self) -> bool;
}
