//! How a set is served.
ghost use Rattle.std.specs.Prelude.{◌≡◌};
ghost use Rattle.lz_serve.specs.Options.{IsIdleBound};

use crate::observer::Loops;
use crate::server::Bounds;
use std::time::Duration;

/// The most connections that loops serve at once.
pub const MOST_CONNECTIONS: usize = 10_000;

/// The most threads that serve, each of which is a loop or has a pass.
pub const MOST_THREADS: usize = 64;

/// How a set is served.
#[derive(Clone, Copy, Debug)]
pub struct ServeOptions {
    /// The port of the loopback interface; 0 for any that is free.
    pub port: u16,
    /// How many commands are carried out at once, 1 to `MOST_PASSES`; without loops each pass has a thread, and a connection, so
    /// there are at most `MOST_THREADS`.
    pub passes: usize,
    /// The loops that serve the connections, where passes don't.
    pub loops: Option<Loops>,
    /// After how many sessions each pass, or each loop, ends; 0 for no end.
    pub sessions: u64,
    /// How many lists the keys are spread over, 1 to `MOST_BUCKETS`.
    pub buckets: usize,
    /// After how many seconds a client's session ends, in which it sent nothing or took none of its replies; 0 for no end.
    pub idle: u64,
}

impl ServeOptions {
    /// When its sessions and passes end.
    pub fn bounds(&self) -> Bounds
        ensures sessions { result.sessions ≡ self.now.sessions }
        ensures idle { IsIdleBound self.now.idle result.idle }
    {
        let idle = if self.idle == 0 {
            None
        } else {
            Some(Duration::from_secs(self.idle))
        };
        Bounds {
            sessions: self.sessions,
            idle,
        }
    }
}
