//! The connections of a loop, as the system's sockets, and those in memory: of one that clears a room, and of the keeper of epochs.

use crate::clearing::Clearings;
use crate::forgetting::{Forgetting, Kept, Spoken};
use crate::language::Language;
use crate::lease::{Lease, Tether};
use crate::listener::Listener;
use crate::loads::Loads;
use crate::moments::MOMENT_MS;
use crate::observer::Loops;
use crate::outlet::Outlet;
use crate::poller::{Poller, Ready};
use crate::socket::{Carrier, Socket};
use lz_resp::{Clearing, Naming};
use mio::net::TcpStream;
use mio::unix::SourceFd;
use mio::{Events, Interest, Poll, Token};
use std::alloc::AllocError;
use std::io::ErrorKind;
use std::net::Net;
use std::sync::Wait;
use std::time::{Clock, Duration};
use std::{io, thread};

/// How many connections are found ready at once, at most.
const EVENTS: usize = 1_024;

/// The token of the listener, which no connection has.
const LISTENER: Token = Token(usize::MAX);

/// For how many milliseconds a loop waits before it tries again where it can't ask what is ready.
const PAUSE_MS: u64 = 20;

/// For how many milliseconds a loop leaves a connection to those that have fewer.
const COURTESY_MS: u64 = 2;

/// What a loop waits for: a listener, which it may share with others, and the connections that it took there.
pub struct Sockets<'a, R: Clock, T: Tether> {
    rt: &'a R,
    poll: Poll,
    events: Events,
    listener: Listener,
    language: Language,
    /// A connection may wait at the listener.
    has_come: bool,
    /// How many connections each loop has, and which of these this one is.
    loads: &'a Loads,
    index: usize,
    /// Since when a connection is left to those that have fewer.
    left: Option<Duration>,
    clearings: &'a Clearings,
    forgetting: Option<&'static Forgetting>,
    /// How many clients all loops may have at once.
    most: usize,
    /// By what something is sent to a client.
    lease: &'a Lease<T>,
    /// How many turns had no place for the connection in memory, though a room is to be cleared.
    missed: usize,
}

impl<'a, R: Clock, T: Tether> Drop for Sockets<'a, R, T> {
    fn drop(self) {
        self.loads.end(self.index);
        let Sockets {
            rt: _,
            poll: _,
            events: _,
            listener: _,
            language: _,
            has_come: _,
            loads: _,
            index: _,
            left: _,
            clearings: _,
            forgetting: _,
            most: _,
            lease: _,
            missed: _,
        } = self;
    }
}

impl<'a, R: Net + Clock + AllocGlobal, T: Tether> Sockets<'a, R, T> {
    /// Waits for the connections of the listener, whose clients speak the language of these loops, as the loop of this number. Accepting at the listener doesn't wait
    /// any more from now on. Rooms can be cleared from now on too, where keys are numbers.
    pub fn new(
        rt: &'a R,
        listener: &Listener,
        loops: &Loops,
        loads: &'a Loads,
        clearings: &'a Clearings,
        lease: &'a Lease<T>,
        index: usize,
    ) -> io::Result<Sockets<'a, R, T>> {
        listener.set_nonblocking(true)?;
        let listener = listener.try_clone()?;
        let poll = Poll::new(rt)?;
        poll.registry().register(
            &mut SourceFd(&listener.raw_fd()),
            LISTENER,
            Interest::READABLE,
        )?;
        let Ok(events) = Events::with_capacity(rt.alloc(), EVENTS) else {
            return Err(io::Error::from(ErrorKind::OutOfMemory));
        };
        loads.begin(index);
        let language = loops.language_inside();
        if language.has_rooms() {
            clearings.open();
        }
        Ok(Sockets {
            rt,
            poll,
            events,
            listener,
            language,
            has_come: true,
            loads,
            index,
            left: None,
            clearings,
            forgetting: loops.forgetting,
            most: loops.connections,
            lease,
            missed: 0,
        })
    }
}

impl<'a, R: Clock + AllocGlobal, T: Tether> Sockets<'a, R, T> {
    // The client that clears this room.
    fn clear(&self, room: u8) -> io::Result<Option<Socket<'a, R, T>>> {
        let Ok(clearing) = Clearing::new(self.rt.alloc(), room) else {
            self.clearings.end(false, 0);
            return Err(io::Error::from(ErrorKind::OutOfMemory));
        };
        Ok(Some(self.carried(Carrier::Memory(clearing), Language::Frames(Naming::Rooms))))
    }

    // The client that keeps the epochs, where no loop has it yet.
    fn keep(&self, shared: &'static Forgetting) -> io::Result<Option<Socket<'a, R, T>>> {
        shared.see_time(self.rt);
        match shared.keeper(self.rt.alloc()) {
            Some(Ok(keeper)) => {
                let kept = Carrier::Kept(Kept::new(keeper, shared));
                Ok(Some(self.carried(kept, Language::Frames(Naming::Rooms))))
            }
            Some(Err(AllocError)) => Err(io::Error::from(ErrorKind::OutOfMemory)),
            None => Ok(None),
        }
    }

    // What a connection goes over that came at the listener.
    fn carrier_of(&self, stream: TcpStream) -> Carrier<'a, R, T> {
        let outlet = Outlet::new(self.rt, stream, self.lease);
        match self.forgetting {
            Some(shared) => Carrier::Spoken(Spoken::new(self.rt.alloc(), outlet, shared)),
            None => Carrier::Socket(outlet),
        }
    }
}

impl<'a, R: Clock, T: Tether> Sockets<'a, R, T> {
    // A connection that goes over this.
    fn carried(&self, carrier: Carrier<'a, R, T>, language: Language) -> Socket<'a, R, T> {
        Socket::new(carrier, language, self.loads, self.index, self.clearings)
    }

    // Refuses a clearing that this turn and the last one had no place for. (It may have been asked for after this turn's.)
    fn refuse_missed(&mut self) {
        self.missed = if self.clearings.is_asked() {
            self.missed.saturating_add(1)
        } else {
            0
        };
        if self.missed > 1 {
            self.clearings.refuse();
        }
    }

    // For how much of this time a loop waits: not long where a client of it may have asked for a clearing that has ended.
    fn most_patience(&self, patience: Duration) -> Duration {
        let patience = match self.forgetting {
            Some(shared) => patience.min(shared.see_time(self.rt)),
            None => patience,
        };
        if self.clearings.has_ended() {
            return patience.min(Duration::from_millis(MOMENT_MS));
        }
        match self.left {
            Some(_) => patience.min(Duration::from_millis(COURTESY_MS)),
            None => patience,
        }
    }

    // Whether a connection that may have come is left to a loop that has fewer, for a while.
    fn leaves_it(&mut self) -> bool {
        if !self.loads.is_more(self.index) {
            self.left = None;
            return false;
        }
        let Ok(now) = self.rt.monotonic() else {
            return false;
        };
        let since = self.left.unwrap_or(now);
        let is_left = now.saturating_sub(since) < Duration::from_millis(COURTESY_MS);
        self.left = if is_left { Some(since) } else { None };
        is_left
    }
}

impl<'a, R: Wait + Clock + AllocGlobal, T: Tether> Poller for Sockets<'a, R, T> {
    ghost came = { λ _. 0 };

    type Stream = Socket<'a, R, T>;

    fn poll(&mut self, patience: Duration, ready: &mut Vec<Ready>) {
        self.refuse_missed();
        let patience = self.most_patience(patience);
        // The system tells of a change once, so it isn't asked before there is room for what it tells.
        if ready.reserve(EVENTS).is_err()
            || self.poll.poll(&mut self.events, Some(patience)).is_err()
        {
            thread::sleep(self.rt, Duration::from_millis(PAUSE_MS));
            return;
        }
        for event in self.events.iter() {
            if event.token() == LISTENER {
                self.has_come = true;
            } else {
                let _ = ready.push(Ready {
                    token: event.token().0,
                    drains: event.is_read_closed() || event.is_priority(),
                });
            }
        }
    }

    #[tactic(auto, unfolding(crate::specs::Streams::IsFresh))]
    fn accept(&mut self, token: usize) -> io::Result<Option<Socket<'a, R, T>>> {
        if let Some(room) = self.clearings.take() {
            return self.clear(room);
        }
        if let Some(shared) = self.forgetting
            && let Some(kept) = self.keep(shared)?
        {
            return Ok(Some(kept));
        }
        if !self.has_come || self.is_full() || self.leaves_it() {
            return Ok(None);
        }
        let stream = match self.listener.accept() {
            Ok(stream) => stream,
            Err(error) if error.kind() == ErrorKind::WouldBlock => {
                self.has_come = false;
                return Ok(None);
            }
            // As where no descriptor is left: the loop's next turn tries again.
            Err(error) => return Err(error),
        };
        stream.set_nonblocking(true)?;
        let mut stream = TcpStream::from_std(stream);
        // A reply goes out at once; where that can't be asked for it may go out later.
        let _ = stream.set_nodelay(true);
        let wanted = Interest::READABLE | Interest::WRITABLE | Interest::PRIORITY;
        self.poll
            .registry()
            .register(&mut stream, Token(token), wanted)?;
        Ok(Some(self.carried(self.carrier_of(stream), self.language)))
    }

    // Where keys are forgotten a place is left for what sweeps a room, however many clients there are.
    fn is_full(&self) -> bool {
        self.forgetting.is_some() && self.loads.have(self.most)
    }
}
