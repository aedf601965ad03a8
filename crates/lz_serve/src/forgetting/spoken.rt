//! A connection whose client speaks to a set that forgets.
ghost use Rattle.std.specs.Prelude.{◌≡◌, ◌≢◌, ◌≤◌, IfSome, length};
ghost use Rattle.lz_serve.specs.Streams.{counted, sent};

use crate::forgetting::Forgetting;
use crate::lease::Tether;
use crate::outlet::Outlet;
use crate::sight::Sight;
use crate::socket::{receive_at, take_at};
use crate::stream::{Received, Taken};
use lz_forget::{Next, Session};
use lz_proto::Request;
use lz_slot::Key;
use std::alloc::Global;
use std::sync::Wait;

/// How many commands are taken before the loop sees to others.
const MOST_STEPS: usize = 512;

/// How many bytes a client may leave unread before nothing more is read of it.
const MOST_UNREAD: usize = 65_536;

/// How much is read at the end of a service, and refused: in pieces of so many bytes, so many of them.
const LAST_PIECE: usize = 4_096;

const LAST_PIECES: usize = 64;

/// A connection whose client speaks to a set that forgets. The loop takes the requests of its session, and what that passes on as a text.
pub(crate) struct Spoken<'a, R, T: Tether> {
    stream: Outlet<'a, R, T>,
    session: Session,
    shared: &'a Forgetting,
    /// Its client has sent nothing more.
    rests: bool,
    /// Its command waits for the next epoch.
    stalls: bool,
    /// Nothing more will be sent but what is unsent; and nothing at all.
    leaves: bool,
    is_shut: bool,
}

impl<'a, R, T: Tether> Drop for Spoken<'a, R, T> {
    fn drop(self) {
        if self.session.is_under_way() {
            self.shared.turns().leave();
        }
        let Spoken {
            stream: _,
            session: _,
            shared: _,
            rests: _,
            stalls: _,
            leaves: _,
            is_shut: _,
        } = self;
    }
}

impl<'a, R, T: Tether> Spoken<'a, R, T> {
    pub(crate) fn new(
        alloc: Global,
        stream: Outlet<'a, R, T>,
        shared: &'a Forgetting,
    ) -> Spoken<'a, R, T> {
        Spoken {
            stream,
            session: shared.session(alloc),
            shared,
            rests: false,
            stalls: false,
            leaves: false,
            is_shut: false,
        }
    }
}

impl<R: Wait, T: Tether> Spoken<'_, R, T> {
    /// Receives what the session passes on next. What it says is sent before that.
    pub(crate) fn receive(&mut self, buffer: &mut [u8]) -> Received
        ensures length { length buffer.new ≡ length buffer.old }
        ensures bound { counted result ≤ length buffer.new }
        ensures some { result ≢ Received.Count 0 }
    {
        if self.leaves {
            return self.pass_over(buffer);
        }
        for _ in 0..MOST_STEPS {
            if let Some(received) = self.step(buffer) {
                return received;
            }
        }
        Received::Later
    }

    /// What the session asks next of the service.
    pub(crate) fn next_request(&mut self) -> Option<Request>
        ensures { IfSome result (λ request. request ≢ Request.Quit) }
    {
        self.session.next_request()
    }

    /// Hears what the service tells.
    pub(crate) fn take(&mut self, text: &[u8]) -> Taken
        ensures bound { sent result ≤ length text.now }
        ensures some { result ≢ Taken.Count 0 }
    {
        if text.is_empty() {
            return Taken::Later;
        }
        let was_under_way = self.session.is_under_way();
        let heard = self.session.hear(text);
        self.leave_turn(was_under_way);
        self.rests = false;
        if heard.is_err() || !self.send() {
            return Taken::Failed;
        }
        Taken::Count(text.len())
    }

    /// The key that the session seeks, if it does.
    pub(crate) fn sought(&self) -> Option<Key> {
        self.session.sought()
    }

    /// Takes what was seen of that key, and says whether the connection stands. Where it couldn't be seen the service is asked.
    pub(crate) fn see(&mut self, sight: Option<Sight>) -> bool {
        let was_under_way = self.session.is_under_way();
        let seen = match sight {
            Some(sight) => self.session.see(sight.key(), sight.is_member()),
            None => self.session.ask_sought(),
        };
        self.leave_turn(was_under_way);
        self.rests = false;
        seen.is_ok()
    }

    /// Whether the session may have more to ask.
    pub(crate) fn has_come(&self) -> bool {
        if self.session.has_requests() || !self.session.asks().is_empty() {
            return true;
        }
        let waits = if self.stalls {
            self.shared.turns().is_closed()
        } else {
            self.rests
        };
        !self.leaves && !self.session.waits() && !waits && !self.is_unread()
    }

    /// Whether its command waits for the next epoch, or for a key to be seen.
    pub(crate) fn stalls(&self) -> bool {
        self.stalls || self.session.sought().is_some()
    }

    /// Nothing more will be sent but what is unsent, and that the service stops, to each command that has changed nothing.
    pub(crate) fn leave(&mut self) {
        if !self.leaves {
            self.refuse();
            self.refuse_unread();
        }
        self.leaves = true;
        self.shut();
    }

    // Takes a step, and says what is received by it, if something is.
    fn step(&mut self, buffer: &mut [u8]) -> Option<Received>
        ensures length { length buffer.new ≡ length buffer.old }
        ensures bound { IfSome result (λ received. counted received ≤ length buffer.new) }
        ensures some { IfSome result (λ received. received ≢ Received.Count 0) }
    {
        if !self.send() {
            return Some(Received::Failed);
        }
        let count = self.session.asks().len().min(buffer.len());
        if count > 0 {
            buffer[..count].copy_from_slice(&self.session.asks()[..count]);
            self.session.asked(count);
            return Some(Received::Count(count));
        }
        if self.session.has_requests() || self.is_unread() {
            return Some(Received::Later);
        }
        match self.session.next() {
            Ok(Next::GoesOn) => None,
            Ok(Next::Begins) => self.begin(),
            Ok(Next::Waits) if self.session.waits() => Some(Received::Later),
            Ok(Next::Waits) => self.read(buffer),
            Ok(Next::Over) => Some(self.end()),
            Err(_) => Some(Received::Failed),
        }
    }

    // Whether its client leaves so much unread that nothing more is read of it.
    fn is_unread(&self) -> bool {
        self.session.says().len() > MOST_UNREAD
    }

    // Begins the command that was taken, unless an epoch ends.
    fn begin(&mut self) -> Option<Received>
        ensures bound { IfSome result (λ received. counted received ≡ 0) }
        ensures some { IfSome result (λ received. received ≢ Received.Count 0) }
    {
        let turns = self.shared.turns();
        let Some(live) = turns.enter() else {
            self.stalls = true;
            return Some(Received::Later);
        };
        self.stalls = false;
        let begun = self.session.begin(live, &turns.left(live));
        if !self.session.is_under_way() {
            turns.leave();
        }
        match begun {
            Ok(()) => None,
            Err(_) => Some(Received::Failed),
        }
    }

    // Reads what the client has sent.
    fn read(&mut self, buffer: &mut [u8]) -> Option<Received>
        ensures length { length buffer.new ≡ length buffer.old }
        ensures bound { IfSome result (λ received. counted received ≡ 0) }
        ensures some { IfSome result (λ received. received ≢ Received.Count 0) }
    {
        match receive_at(&mut self.stream, buffer) {
            Received::Count(count) => {
                self.rests = false;
                match self.session.feed(&buffer[..count]) {
                    Ok(()) => None,
                    Err(_) => Some(Received::Failed),
                }
            }
            Received::Later => {
                self.rests = true;
                Some(Received::Later)
            }
            Received::Over => Some(self.end()),
            Received::Failed => Some(Received::Failed),
        }
    }

    // The client's text has ended, once all was sent that is said.
    fn end(&mut self) -> Received
        ensures bound { counted result ≡ 0 }
        ensures some { result ≢ Received.Count 0 }
    {
        self.rests = true;
        if !self.send() {
            return Received::Failed;
        }
        if self.session.says().is_empty() {
            Received::Over
        } else {
            Received::Later
        }
    }

    // Sends what is said, as far as it is taken, and says whether the connection stands.
    fn send(&mut self) -> bool {
        'pieces: for _ in 0..u64::MAX {
            if self.session.says().is_empty() {
                return true;
            }
            match take_at(&mut self.stream, self.session.says()) {
                Taken::Count(count) => self.session.said(count),
                Taken::Later => return true,
                Taken::Failed => return false,
            }
        }
        false
    }

    // Reads what has come, and refuses it too.
    fn refuse_unread(&mut self) {
        let mut piece = [0; LAST_PIECE];
        for _ in 0..LAST_PIECES {
            match receive_at(&mut self.stream, &mut piece) {
                Received::Count(count) if self.session.feed(&piece[..count]).is_ok() => {
                    self.refuse();
                }
                _ => break,
            }
        }
    }

    // Refuses each command that has come whole, up to one that may have changed something.
    fn refuse(&mut self) {
        let was_under_way = self.session.is_under_way();
        'commands: for _ in 0..u64::MAX {
            if self.session.refuse().is_err() {
                break;
            }
            match self.session.next() {
                Ok(Next::GoesOn | Next::Begins) => {}
                _ => break,
            }
        }
        self.leave_turn(was_under_way);
    }

    // The command that was under way in an epoch may be so no more.
    fn leave_turn(&self, was_under_way: bool) {
        if was_under_way && !self.session.is_under_way() {
            self.shared.turns().leave();
        }
    }

    // Says that nothing more will be sent, once all was.
    fn shut(&mut self) {
        let _ = self.send();
        if !self.is_shut && self.session.says().is_empty() {
            self.is_shut = true;
            self.stream.shut();
        }
    }

    // What the client sends after its session's end is received for nothing.
    fn pass_over(&mut self, buffer: &mut [u8]) -> Received
        ensures length { length buffer.new ≡ length buffer.old }
        ensures bound { counted result ≤ length buffer.new }
        ensures some { result ≢ Received.Count 0 }
    {
        self.shut();
        receive_at(&mut self.stream, buffer)
    }
}
