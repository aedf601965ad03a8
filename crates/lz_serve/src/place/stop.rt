//! A place whose service stops.
ghost use Rattle.lz_serve.specs.Clients.{KeepsLinesOf, RefusesOf};

use crate::place::Place;
use crate::stream::Stream;

/// How often a client is read once its service stops. One that sends on without reading would be told without an end, and reset at last.
const LAST_READS: usize = 16;

impl<S: Stream> Place<S> {
    /// The service stops: what its client has sent and wasn't begun is refused. It is told so once it is tended to.
    pub(crate) fn stop(&mut self)
        requires { S.asked }
        ensures kept { KeepsLinesOf self.old.client self.new.client }
        ensures refused { RefusesOf self.old.client self.new.client }
    {
        self.readable = true;
        self.left = Some(LAST_READS);
        if let Some(client) = &mut self.client {
            client.stop();
        }
    }
}

/// Whether a client is read once more, of which so many reads are left, if its service stops.
pub(super) fn may_read(left: &mut Option<usize>) -> bool {
    match left {
        Some(0) => false,
        Some(left) => {
            *left -= 1;
            true
        }
        None => true,
    }
}
