//! The clients of the loop.
ghost use Rattle.std.specs.Prelude.{◌≡◌, ◌≤◌, ◌↔◌, ◌⊎◌, [], All, IfOk, IfSome, IsTrue, None, false, length, slice_get, true};
ghost use Rattle.lz_list.specs.Traces.{Begins};
ghost use Rattle.lz_board.specs.Seats.{part};
ghost use Rattle.lz_serve.specs.Clients.{AwaitsBeforeAt, ChangesAt, CountsOne, HasNoneAt, HasRepliedBeforeAt, HaveSeenIn, IsAwaited, IsHeardAt, IsInTurn, IsNext, Keeps, KeepsAwaited, OnlyLeave, TakesTurn, TellsAt, Turned};
ghost use Rattle.lz_serve.specs.Grants.{Promises};
ghost use Rattle.lz_serve.specs.Queues.{queued};
ghost use Rattle.lz_serve.specs.Streams.{IsFresh};

mod back;
mod page;
mod parting;
mod stop;

use crate::asking::Granted;
use crate::client::{Client, Question};
use crate::clock::Clock;
use crate::observer::Observer;
use crate::place::{Place, Turn, Wish};
use crate::poller::Ready;
use crate::queue::Queue;
use crate::stream::Stream;
use lz_set::{Named, Pass};
use std::alloc::{AllocError, Global};
use std::collections::VecDeque;
use std::marker::Model;
use std::time::Duration;

/// How many clients wait for their turn where it is worth more to send replies together than to send each at once.
const MANY: usize = 64;

/// The clients of the loop, each at a place with a number, its token. Those that have a line for a pass wait in a queue, each once. One
/// that has more after it waits behind the others.
#[derive(Drop)]
pub struct Crowd<S: Stream> {
    places: Vec<Place<S>>,
    vacant: Vec<usize>,
    queue: Queue,
    /// Those that were answered, had no line in their turn or are to be tended to in each turn, and weren't since.
    back: VecDeque<usize>,
    /// Those that wait for a page.
    scans: Vec<usize>,
    /// How many were admitted, and how many of these have left.
    admitted: u64,
    parted: u64,
    /// Of how many that are here the session is over.
    leaving: usize,
    /// How many replies were given since the last sync whose clients haven't asked again.
    out: usize,
    /// How many turns gave a line, up to 2^64 - 1.
    begun: u64,
    clock: Clock,
}

impl<S: Stream> Model for Crowd<S> {
    ghost use Rattle.std.specs.Prelude.{map};
    ghost use Rattle.lz_serve.specs.Clients.{Askers};

    ghost Value = { Askers };

    ghost view = { λ c. record { admitted = c.admitted; clients = map (λ place. place.client) c.places.items; queue = c.queue; scans = c.scans.items; begun = c.begun } };
}

impl<S: Stream> Crowd<S> {
    /// Room for so many clients at once.
    pub fn new(alloc: Global, most: usize) -> Result<Crowd<S>, AllocError>
        ensures places { IfOk result (λ crowd. length crowd.clients ≡ most) }
        ensures empty { IfOk result (λ crowd. (crowd.admitted ≡ 0) × (crowd.queue ≡ []) × (crowd.scans ≡ [])) }
        ensures seen { IfOk result (λ crowd. HaveSeenIn crowd []) }
    {
        let mut places = Vec::with_capacity(alloc, most)?;
        let mut vacant = Vec::with_capacity(alloc, most)?;
        let queue = Queue::new(alloc, most)?;
        let back = VecDeque::with_capacity(alloc, most)?;
        let scans = Vec::with_capacity(alloc, most)?;
        for token in 0..most {
            places.push(Place::empty())?;
            vacant.push(token)?;
        }
        Ok(Crowd {
            places,
            vacant,
            queue,
            back,
            scans,
            admitted: 0,
            parted: 0,
            leaving: 0,
            out: 0,
            begun: 0,
            clock: Clock::new(),
        })
    }

    /// How many places there are.
    pub fn most(&self) -> usize
        ensures { result ≡ length self.now.clients }
    {
        self.places.len()
    }

    /// How many clients were admitted.
    pub fn admitted(&self) -> u64
        ensures { result ≡ self.now.admitted }
    {
        self.admitted
    }

    /// How many clients have left.
    pub fn parted(&self) -> u64 {
        self.parted
    }

    /// Whether all have left.
    pub fn is_empty(&self) -> bool {
        self.vacant.len() == self.places.len()
    }

    /// How many wait for their turn.
    pub fn waiting(&self) -> usize
        ensures { result ≡ length self.now.queue }
    {
        self.queue.len()
    }

    /// Whether none waits for its turn.
    pub fn is_quiet(&self) -> bool
        ensures { IsTrue result ↔ (self.now.queue ≡ []) }
    {
        self.queue.is_empty()
    }

    /// Whether a client is waited for whose session is over, or one is to be tended to in each turn.
    pub fn is_left(&self) -> bool {
        self.leaving > 0 || !self.back.is_empty()
    }

    /// Whether fewer asked since the last sync than were answered.
    pub fn has_out(&self) -> bool {
        self.out > 0
    }

    /// No client is waited for that was answered by now.
    pub fn forget_out(&mut self)
        ensures { self.new ≡ self.old }
    {
        self.out = 0;
    }

    /// A token that no client has, if there is one.
    pub fn vacancy(&self) -> Option<usize> {
        self.vacant.last().copied()
    }

    /// Admits the client of this connection under the token that `vacancy` gave. Its number is how many were admitted.
    pub fn admit<O: Observer>(&mut self, alloc: Global, stream: S, observer: &O, buffer: &mut [u8])
        requires fresh { IsFresh (S.traffic stream) }
        requires promised { S.promised [] }
        ensures { Keeps self.old self.new }
    {
        if self.admitted == u64::MAX {
            return;
        }
        let Some(token) = self.vacant.pop() else {
            return;
        };
        let Some(place) = self.places.get_mut(token) else {
            return;
        };
        self.admitted += 1;
        let client = Client::new(alloc, self.admitted, stream);
        place.admit(client, &self.clock);
        self.tend(token, observer, buffer);
    }

    /// A connection can be read or written.
    pub fn hear<O: Observer>(&mut self, ready: Ready, observer: &O, buffer: &mut [u8])
        ensures { Keeps self.old self.new }
    {
        let Ready { token, drains } = ready;
        let Some(place) = self.places.get_mut(token) else {
            return;
        };
        place.hear(drains, &self.clock);
        self.tend(token, observer, buffer);
    }

    /// Hands a reply to the client of this token, if that is still the one whose line was answered. This pass has seen what those had that
    /// answered any of the clients, this reply included.
    pub fn reply<N: Named, O: Observer>(
        &mut self,
        token: usize,
        granted: Granted<N>,
        pass: &Pass,
        observer: &O,
    )
        requires promised { Promises N.board N.format S.promised S.listed }
        requires awaited { IsAwaited self.old token granted.question }
        requires seen { HaveSeenIn self.old (part pass.now).known }
        requires after { Begins (part granted.after).known (part pass.now).known }
        ensures kept { KeepsAwaited self.old self.new }
        ensures heard { IsHeardAt self.new token granted.question }
        ensures told { TellsAt self.old token granted.question self.new }
        ensures waits { IsInTurn self.new token }
        ensures seen { HaveSeenIn self.new (part pass.now).known }
        ensures begun { self.new.begun ≡ self.old.begun }
    {
        let Some(place) = self.places.get_mut(token) else {
            return;
        };
        self.out = self.out.saturating_add(1);
        let is_next = place.reply(granted, pass, observer, &self.clock);
        let is_back = place.give_back();
        self.put(token, is_next);
        self.put_back(token, is_back);
    }

    /// Whether an earlier line of the client of this token isn't answered.
    pub fn has_earlier(&self, token: usize, line: u64) -> bool
        ensures none { result ≡ false → HasRepliedBeforeAt self.now token line }
        ensures some { result ≡ true → AwaitsBeforeAt self.now token line }
    {
        match self.places.get(token) {
            Some(place) => place.has_earlier(line),
            None => false,
        }
    }

    /// The question to this pass whose turn it is, if there is one, with the token of its client. Where there is none, none that waited has a
    /// line.
    pub fn take_turn(&mut self, pass: &Pass) -> Option<(usize, Question)>
        requires { HaveSeenIn self.old (part pass.now).known }
        ensures before { IfSome result (λ turn. turn.1.before ≡ pass.now) }
        ensures awaited { IfSome result (λ turn. IsAwaited self.new turn.0 turn.1) }
        ensures later { IfSome result (λ turn. IsNext self.old turn.0 turn.1) }
        ensures turn { IfSome result (λ turn. TakesTurn self.old self.new turn.0) }
        ensures none { result ≡ None → All (HasNoneAt self.new) self.old.queue × (self.new.queue ≡ []) }
        ensures counted { IfSome result (λ _. CountsOne self.old.begun self.new.begun) }
        ensures uncounted { result ≡ None → self.new.begun ≡ self.old.begun }
        ensures kept { Keeps self.old self.new }
    {
        'turns: while let Some((token, question)) = self.turn(pass) {
            if let Some(question) = question {
                self.out = self.out.saturating_sub(1);
                return Some((token, question));
            }
        }
        None
    }

    // The turn of the one that waits first: the question to this pass that it has, if it has one.
    fn turn(&mut self, pass: &Pass) -> Option<(usize, Option<Question>)>
        requires { HaveSeenIn self.old (part pass.now).known }
        ensures before { IfSome result (λ turn. IfSome turn.1 (λ question. question.before ≡ pass.now)) }
        ensures awaited { IfSome result (λ turn. IfSome turn.1 (λ question. IsAwaited self.new turn.0 question)) }
        ensures later { IfSome result (λ turn. IfSome turn.1 (IsNext self.old turn.0)) }
        ensures turned { IfSome result (λ turn. Turned self.old self.new turn.0 turn.1) }
        ensures none { result ≡ None → (self.old.queue ≡ []) × (self.new ≡ self.old) }
        ensures counted { IfSome result (λ turn. IfSome turn.1 (λ _. CountsOne self.old.begun self.new.begun)) }
        ensures uncounted { IfSome result (λ turn. turn.1 ≡ None → self.new.begun ≡ self.old.begun) }
        ensures kept { Keeps self.old self.new }
    {
        let token = self.queue.pop()?;
        let Some(place) = self.places.get_mut(token) else {
            return Some((token, None));
        };
        let Turn {
            question,
            is_next,
            is_back,
        } = place.take_turn(pass);
        self.begun = self.begun.saturating_add(u64::from(question.is_some()));
        self.put(token, is_next);
        self.put_back(token, is_back);
        Some((token, question))
    }

    /// Reads the client of this token once more, if none of its requests waits.
    pub fn read_last<O: Observer>(&mut self, token: usize, observer: &O, buffer: &mut [u8])
        ensures { Keeps self.old self.new }
    {
        let Some(place) = self.places.get_mut(token) else {
            return;
        };
        place.read_last(observer, buffer);
    }

    /// The question to this pass that the client of this token has, if it has one.
    pub fn take_last(&mut self, token: usize, pass: &Pass) -> Option<Question>
        requires { HaveSeenIn self.old (part pass.now).known }
        ensures before { IfSome result (λ question. question.before ≡ pass.now) }
        ensures awaited { IfSome result (λ question. IsAwaited self.new token question) }
        ensures later { IfSome result (IsNext self.old token) }
        ensures none { result ≡ None → HasNoneAt self.new token }
        ensures kept { Keeps self.old self.new }
    {
        let Some(place) = self.places.get_mut(token) else {
            return None;
        };
        place.ask(pass)
    }

    /// Sees the time by the system's clock, by which replies are timed.
    pub fn see_time(&mut self, now: Duration)
        ensures { self.new ≡ self.old }
    {
        self.clock.see(now);
    }

    /// Notes the time by the system's clock at the start of a turn.
    pub fn note_time(&mut self, now: Duration)
        ensures { self.new ≡ self.old }
    {
        self.clock.note(now);
    }

    // Does for a client what needs no pass, and queues it where it wants a turn.
    fn tend<O: Observer>(&mut self, token: usize, observer: &O, buffer: &mut [u8])
        ensures kept { Keeps self.old self.new }
        ensures begun { self.new.begun ≡ self.old.begun }
    {
        let crowded = self.queue.len() >= MANY;
        let Some(place) = self.places.get_mut(token) else {
            return;
        };
        let was_leaving = place.leaves();
        let wish = place.tend(observer, buffer, crowded, self.clock.now());
        let left = place.leaves() && !was_leaving;
        self.leaving = self.leaving.saturating_add(usize::from(left));
        match wish {
            Wish::Nothing => {}
            Wish::Turn => self.put(token, true),
            Wish::Page => self.put_scan(token),
            Wish::Again => self.put_back(token, true),
            Wish::Close => self.close(token),
        }
    }

    // A client that has a line waits for its turn. There is room for it.
    fn put(&mut self, token: usize, is_next: bool)
        ensures leave { OnlyLeave self.old self.new }
        ensures queue { (self.new.queue ≡ self.old.queue) ⊎ (self.new.queue ≡ queued token self.old.queue) }
        ensures last { is_next ≡ false → self.new.queue ≡ self.old.queue }
        ensures next { is_next ≡ true → IsInTurn self.new token }
    {
        if !is_next {
            return;
        }
        if !self.queue.put(token) {
            self.close(token);
        }
    }

    // Closes a connection, where there is one. Its token may be had again.
    fn close(&mut self, token: usize)
        ensures leave { OnlyLeave self.old self.new }
        ensures others { ChangesAt token self.old self.new }
        ensures queue { self.new.queue ≡ self.old.queue }
        ensures scans { self.new.scans ≡ self.old.scans }
        ensures gone { IfSome (slice_get self.new.clients token) (λ client. client ≡ None) }
    {
        let Some(place) = self.places.get_mut(token) else {
            return;
        };
        if place.leaves() {
            self.leaving = self.leaving.saturating_sub(1);
        }
        if place.close() {
            self.parted = self.parted.saturating_add(1);
            // There is room for each.
            let _ = self.vacant.push(token);
        }
    }
}
