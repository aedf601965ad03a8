//! The thread of a pass, which serves one connection after the other.
ghost use Rattle.std.specs.Prelude.{◌≡◌, vec_len};
ghost use Rattle.lz_list.specs.Traces.{Begins};
ghost use Rattle.lz_board.specs.Seats.{part};
ghost use Rattle.lz_serve.specs.Grants.{Promises};

use crate::client::Client;
use crate::free_pass::FreePass;
use crate::given::Given;
use crate::guest::Guest;
use crate::listener::{Listener, close_listener};
use crate::observer::{Observer, Verb};
use crate::server::Bounds;
use crate::stream::Stream;
use lz_disk::Disk;
use lz_proto::MOST_PIECE;
use lz_set::{Named, Set, StepGate};
use std::io::{ErrorKind, Read};
use std::net::{Shutdown, TcpStream};
use std::sync::Wait;
use std::sync::atomic::{AtomicBool, Ordering};
use std::thread;
use std::time::{Clock, Duration};

/// How many milliseconds a thread waits before it tries again where no connection could be had, as when no descriptors are
/// left: twice as long each time, up to a second.
const PAUSE_MS: u64 = 20;

const LONGEST_PAUSE_MS: u64 = 1_000;

/// For how many milliseconds, and how often, what a client still sends after a session's end is read and thrown away: a
/// connection that is closed over unread bytes is reset, and the client may lose its last replies.
const FAREWELL_MS: u64 = 100;

const FAREWELLS: usize = 16;

/// Serves connections of a listener, one after the other.
#[derive(Drop)]
pub(crate) struct Host<
    'a,
    D: Disk,
    G: StepGate,
    N: Named,
    R: Wait + Clock + AllocGlobal,
    O: Observer,
> {
    pub(crate) rt: &'a R,
    pub(crate) listener: &'a Listener,
    pub(crate) set: &'a Set<D, G, N>,
    pub(crate) bounds: Bounds,
    pub(crate) observer: &'a O,
    /// A client of some thread was told that the service halted.
    pub(crate) told: &'a AtomicBool,
}

impl<'a, D: Disk, G: StepGate, N: Named, R: Wait + Clock + AllocGlobal, O: Observer> Host<
    'a,
    D,
    G,
    N,
    R,
    O,
> {
    /// One more that serves the same.
    pub(crate) fn again(&self) -> Host<'a, D, G, N, R, O> {
        Host {
            rt: self.rt,
            listener: self.listener,
            set: self.set,
            bounds: self.bounds,
            observer: self.observer,
            told: self.told,
        }
    }

    /// Serves by each of these passes in turn.
    pub(crate) fn serve<B: Given>(&self, share: Vec<FreePass<N, B>>) -> Vec<FreePass<N, B>>
        ensures { vec_len result ≡ vec_len share }
    {
        let mut share = share;
        for free in share.iter_mut() {
            self.serve_by(free);
        }
        share
    }

    // Serves by this pass, until a client was told that the service halted, it has served as many as it may, or the service is to end.
    // The first thread that tells of a halt tells the observer too.
    fn serve_by<B: Given>(&self, free: &mut FreePass<N, B>) {
        self.serve_sessions(free);
        if free.halted() && !self.told.swap(true, Ordering::SeqCst) {
            self.observer.halted();
            close_listener(self.listener);
        }
    }

    // Serves one connection after the other, so many of them, or without an end at 0, and no more once it was told that the service halted.
    fn serve_sessions<B: Given>(&self, free: &mut FreePass<N, B>) {
        let mut served = 0u64;
        let mut pause = PAUSE_MS;
        if self.is_ended() {
            return;
        }
        for _ in self.rt.forever() {
            let stream = self.listener.accept();
            if self.is_ended() {
                return;
            }
            let stream = match stream {
                Ok(stream) => stream,
                // Nobody came.
                Err(error) if error.kind() == ErrorKind::WouldBlock => continue,
                Err(error) => {
                    self.observer.unaccepted(error);
                    thread::sleep(self.rt, Duration::from_millis(pause));
                    pause = pause.saturating_mul(2).min(LONGEST_PAUSE_MS);
                    continue;
                }
            };
            pause = PAUSE_MS;
            served = served.wrapping_add(1);
            self.serve_stream(&stream, served, free);
            // Who waits at a listener that stays is left to the next service.
            if free.halted() || served == self.bounds.sessions || self.is_ended() {
                return;
            }
        }
    }

    // Whether a client of some pass was told that the service halted, or the service is to end.
    fn is_ended(&self) -> bool {
        self.told.load(Ordering::SeqCst) || self.observer.stops()
    }

    // Serves one connection, which has this number.
    fn serve_stream<B: Given>(&self, stream: &TcpStream, number: u64, free: &mut FreePass<N, B>) {
        self.observer.accepted();
        let guest = Guest::new(stream, self.observer, self.bounds.idle);
        let mut client = Client::new(self.rt.alloc(), number, guest);
        serve_client(self.rt, self.set, &mut client, free, self.observer);
        take_leave(stream);
        self.observer.parted();
    }
}

/// Answers a client's requests by this pass, each before the next begins, and sends each reply before that: up to the end of the client's
/// text, `quit`, a reply that the service halted, or the end of the service. The pass has seen what those had that answered the client.
pub fn serve_client<S, D, G, N, B, R, O>(
    rt: &R,
    set: &Set<D, G, N>,
    client: &mut Client<S>,
    free: &mut FreePass<N, B>,
    observer: &O,
)
where
    S: Stream,
    D: Disk,
    G: StepGate,
    N: Named,
    B: Given,
    R: Wait + Clock,
    O: Observer,
    requires promised { Promises N.board N.format S.promised S.listed }
    requires seen { Begins client.old.seen (part free.old.pass).known }
{
    let mut buffer = [0; MOST_PIECE];
    'turns: for _ in rt.forever() {
        if observer.stops() || client.is_over() {
            return;
        }
        let question = client.ask(free.pass());
        // The texts of faulty lines before it.
        client.write();
        match question {
            Some(question) => {
                let verb = Verb::of(&question.request());
                let granted = free.answer(rt, set, question);
                observer.answered(verb, granted.reply(), None);
                client.reply(granted, free.pass(), observer);
                client.write();
            }
            None if client.is_over() => return,
            None => {
                let _ = client.read(&mut buffer, false);
                client.tell_texts(observer);
            }
        }
    }
}

// Ends the replies, and reads for a while what is still sent.
fn take_leave(stream: &TcpStream) {
    let patience = Some(Duration::from_millis(FAREWELL_MS));
    if stream.shutdown(Shutdown::Write).is_err() || stream.set_read_timeout(patience).is_err() {
        return;
    }
    let mut rest = [0; 4096];
    let mut reader = stream;
    for _ in 0..FAREWELLS {
        match reader.read(&mut rest) {
            Ok(0) | Err(_) => return,
            Ok(_) => {}
        }
    }
}
