//! The connection in memory by which epochs are kept.
ghost use Rattle.std.specs.Prelude.{◌≡◌, ◌≢◌, ◌≤◌, length};
ghost use Rattle.lz_serve.specs.Streams.{counted, sent};

use crate::forgetting::Forgetting;
use crate::stream::{Received, Taken};
use lz_forget::Keeper;
use lz_resp::Cleared;

/// The connection in memory by which epochs are kept. A room is swept by a clearing of its own.
#[derive(Drop)]
pub(crate) struct Kept<'a> {
    keeper: Keeper<'a>,
    shared: &'a Forgetting,
    /// The clearing was asked for.
    sweeps: bool,
    leaves: bool,
}

impl<'a> Kept<'a> {
    pub(crate) fn new(keeper: Keeper<'a>, shared: &'a Forgetting) -> Kept<'a> {
        Kept {
            keeper,
            shared,
            sweeps: false,
            leaves: false,
        }
    }

    /// Does what is to be done by now, and receives what is asked of the service for it.
    pub(crate) fn receive(&mut self, buffer: &mut [u8]) -> Received
        ensures length { length buffer.new ≡ length buffer.old }
        ensures bound { counted result ≤ length buffer.new }
        ensures some { result ≢ Received.Count 0 }
    {
        if self.leaves {
            return Received::Over;
        }
        self.sweep();
        if self.keeper.tend().is_err() {
            return Received::Failed;
        }
        let asks = self.keeper.asks();
        let count = asks.len().min(buffer.len());
        if count == 0 {
            return Received::Later;
        }
        buffer[..count].copy_from_slice(&asks[..count]);
        self.keeper.asked(count);
        Received::Count(count)
    }

    /// Hears what the service tells.
    pub(crate) fn take(&mut self, text: &[u8]) -> Taken
        ensures bound { sent result ≤ length text.now }
        ensures some { result ≢ Taken.Count 0 }
    {
        if text.is_empty() {
            return Taken::Later;
        }
        match self.keeper.hear(text) {
            Ok(()) => Taken::Count(text.len()),
            Err(_) => Taken::Failed,
        }
    }

    /// Whether it has something to do.
    pub(crate) fn has_come(&self) -> bool {
        !self.leaves && (!self.keeper.asks().is_empty() || self.shared.turns().patience() == 0)
    }

    pub(crate) fn leave(&mut self) {
        self.leaves = true;
    }

    // Has the room swept that is to be, and tells the keeper once it is.
    fn sweep(&mut self) {
        let Some(room) = self.keeper.sweeps() else {
            return;
        };
        let sweeps = self.shared.sweeps();
        if !self.sweeps {
            self.sweeps = sweeps.ask(room);
            return;
        }
        let Some(outcome) = sweeps.outcome() else {
            return;
        };
        self.sweeps = false;
        if matches!(outcome, Cleared::Removed(_)) {
            self.keeper.swept();
        }
    }
}
