//! What a loop works at: its clients, its passes, and the calls under way.
ghost use Rattle.std.specs.Prelude.{◌≡◌, ◌≢◌, ◌+◌, ◌<◌, All, IfOk, IfSome, None, Some, false, true, vec_len};
ghost use Rattle.lz_board.specs.Seats.{part};
ghost use Rattle.lz_set.specs.declared.underway.Blocked.TheVariants as stage;
ghost use Rattle.lz_serve.specs.Clients.{HaveSeenIn, KeepsAwaited};
ghost use Rattle.lz_serve.specs.Desks.{AnswersOneOf, BeginsWithin};
ghost use Rattle.lz_serve.specs.Grants.{Promises};

mod pages;
mod sights;
mod turning;

use crate::answering::{Next, answer_one, begin_next, meet, play_call};
use crate::asking::Asking;
use crate::crowd::Crowd;
use crate::free_pass::{FreePass, first_of, put_free, with_one};
use crate::gathering::Gathering;
use crate::given::Given;
use crate::moments::Moments;
use crate::observer::Observer;
use crate::pacing::Pacing;
use crate::stream::Stream;
use lz_disk::Disk;
use lz_set::{Named, Set, StepGate};
use std::alloc::{AllocError, Global};
use std::marker::Model;
use std::sync::Wait;
use std::time::{Clock, Duration};

/// The clients of a loop, and its passes: those that are free, those that answer a request, and where there are several one that makes no call
/// and meets the others, each after its answer and before its next call. No pass is lost.
#[derive(Drop)]
pub(crate) struct Desk<S: Stream, N: Named, B: Given> {
    pub(crate) crowd: Crowd<S>,
    free: Vec<FreePass<N, B>>,
    /// The calls under way.
    calls: Vec<Asking<N, B>>,
    /// What it has seen is all that the clients have, by the replies that they got. None while there is one pass.
    meeting: Option<FreePass<N, B>>,
    /// For how many passes there is room, and how many were taken in.
    most: usize,
    given: usize,
    halted: bool,
    /// No further request is begun.
    ends: bool,
    /// Of how many clients that have left the observer was told.
    parted: u64,
    /// When calls that wait for slots are made again.
    tries: Moments,
    /// For how long a sync waits for clients that were just answered.
    gathering: Gathering,
    /// When pages are listed beside commands.
    pacing: Pacing,
    /// How many lines may still begin before connections are heard.
    left: usize,
    /// A call waited for slots when they were played last, and that was from the last one on.
    waited: bool,
    backward: bool,
}

impl<S: Stream, N: Named, B: Given> Model for Desk<S, N, B> {
    ghost use Rattle.std.specs.Prelude.{◌+◌, length, map, option_map, vec_capacity, vec_len};
    ghost use Rattle.lz_board.specs.Seats.{part};
    ghost use Rattle.lz_serve.specs.Desks.{IsDesk, Passes, count_of};

    ghost Value = { Passes };

    ghost view = { λ d. record { given = d.given; most = d.most; free = vec_len d.free + count_of d.meeting; calls = d.calls.items; ends = d.ends; begun = d.crowd.begun; left = d.left; waiting = length d.crowd.queue } };

    ghost invariant = { λ d. IsDesk d.given d.most (vec_len d.free + count_of d.meeting) (vec_capacity d.free) (vec_capacity d.calls) d.crowd (option_map (λ free. (part free.pass).known) d.meeting) d.calls.items (map (λ free. (part free.pass).known) d.free.items) };
}

impl<S: Stream, N: Named, B: Given> Desk<S, N, B> {
    /// One for so many passes and clients, with none yet.
    pub(crate) fn new(
        alloc: Global,
        passes: usize,
        clients: usize,
    ) -> Result<Desk<S, N, B>, AllocError>
        ensures { IfOk result (λ desk. (desk.given ≡ 0) × (desk.free ≡ 0) × (desk.most ≡ passes)) }
    {
        Ok(Desk {
            crowd: Crowd::new(alloc, clients)?,
            free: Vec::with_capacity(alloc, passes)?,
            calls: Vec::with_capacity(alloc, passes)?,
            meeting: None,
            most: passes,
            given: 0,
            halted: false,
            ends: false,
            parted: 0,
            tries: Moments::new(),
            gathering: Gathering::new(),
            pacing: Pacing::new(),
            left: 0,
            waited: false,
            backward: false,
        })
    }

    /// Takes a free pass in, while all are free. Where it is the second, the first one meets the others from now on.
    pub(crate) fn take_in(&mut self, free: FreePass<N, B>)
        requires room { self.old.given < self.old.most }
        requires rests { self.old.free ≡ self.old.given }
        ensures given { self.new.given ≡ self.old.given + 1 }
        ensures most { self.new.most ≡ self.old.most }
        ensures rests { self.new.free ≡ self.new.given }
    {
        let meeting = self.meeting.take();
        self.meeting = first_of(meeting, &mut self.free);
        put_free(&mut self.free, free);
        self.given += 1;
    }

    /// The passes, once each is free.
    pub(crate) fn into_free(self) -> Vec<FreePass<N, B>>
        requires { self.free ≡ self.given }
        ensures { vec_len result ≡ self.given }
    {
        let Desk {
            crowd: _,
            free,
            calls: _,
            meeting,
            most: _,
            given: _,
            halted: _,
            ends: _,
            parted: _,
            tries: _,
            gathering: _,
            pacing: _,
            left: _,
            waited: _,
            backward: _,
        } = self;
        with_one(free, meeting)
    }

    /// Begins to answer lines that wait, by the passes that are free: one of each client before a second of any. Where no further line is to
    /// be begun none is.
    pub(crate) fn begin_all<D: Disk, G: StepGate, R: Wait>(&mut self, rt: &R, set: &Set<D, G, N>)
        ensures given { self.new.given ≡ self.old.given }
        ensures ends { self.old.ends ≡ true → self.new.calls ≡ self.old.calls }
        ensures within { BeginsWithin self.old self.new }
    {
        let mut kept = set.keep();
        'passes: for _ in 0..self.free.len() {
            if self.left == 0 || self.crowd.is_quiet() {
                return;
            }
            let Some(free) = self.free.pop() else {
                return;
            };
            let mut asking = Asking::new(free);
            meet(set, &mut asking, &mut self.meeting);
            if begin_next(rt, set, &mut kept, &mut self.crowd, &mut asking, self.ends) {
                let Ok(()) = self.calls.push(asking) else {
                    unreachable!()
                };
                self.left -= 1;
            } else {
                put_free(&mut self.free, asking.into_free());
                return;
            }
        }
    }

    /// Plays each call on, up to a Sync or a taken node. One that stands before a Sync since the last time is left to `sync_all`. One that
    /// is answered is told, and its pass begins the line whose turn it is, unless no further one is to be. One that waits for slots is made again
    /// once a moment. While one does they are played from the first one on and from the last one on by turns: it may wait for an earlier line, which
    /// may stand on either side of it, since the last call takes the place of one that ends.
    pub(crate) fn play_all<D, G, R, O>(
        &mut self,
        rt: &R,
        set: &Set<D, G, N>,
        observer: &O,
        buffer: &mut [u8],
    )
    where
        D: Disk,
        G: StepGate,
        R: Wait + Clock,
        O: Observer,
        requires { Promises N.board N.format S.promised S.listed }
        ensures given { self.new.given ≡ self.old.given }
        ensures ends { self.old.ends ≡ true → (self.new.ends ≡ true) × All (AnswersOneOf self.old.calls) self.new.calls }
        ensures within { BeginsWithin self.old self.new }
    {
        let tries = self.turn_round(rt);
        let mut kept = set.keep();
        let mut done = 0;
        'calls: for _ in rt.forever() {
            let Some(at) = place_after(done, self.calls.len(), self.backward) else {
                break;
            };
            if self.calls[at].is_before_sync() {
                done += 1;
                continue;
            }
            // The only pass is to rest before its next call where a client waits for a page.
            let is_wanted = self.meeting.is_none() && self.crowd.scans() > 0;
            let rests = self.ends | (is_wanted | (self.left == 0));
            let asking = &mut self.calls[at];
            match play_call(
                rt,
                set,
                &mut kept,
                &mut self.crowd,
                &mut self.meeting,
                asking,
                observer,
                rests,
                tries,
            ) {
                Next::GoesOn => self.left = self.left.saturating_sub(1),
                Next::Waits => {
                    self.waited |= asking.waits();
                    done += 1;
                }
                Next::Rests => {
                    let free = self.calls.swap_remove(at).into_free();
                    self.halted |= free.halted();
                    self.ends |= self.halted;
                    put_free(&mut self.free, free);
                }
            }
        }
        drop(kept);
        self.crowd.tend_back(observer, buffer);
    }

    // Calls are played again, from the other end where one waited for slots: sees the time by which replies are timed, and says whether a moment has
    // passed in which such calls weren't made again.
    fn turn_round<R: Clock>(&mut self, rt: &R) -> bool
        ensures { self.new ≡ self.old }
    {
        self.backward = self.waited && !self.backward;
        self.waited = false;
        let now = rt.monotonic().ok();
        if let Some(now) = now {
            self.crowd.see_time(now);
        }
        self.tries.pass(now)
    }

    /// Plays the Sync of each call that stands before one. The first calls the device, and the others find their slots covered.
    pub(crate) fn sync_all<D: Disk, G: StepGate, R: Wait + Clock>(
        &mut self,
        rt: &R,
        set: &Set<D, G, N>,
    )
        ensures given { self.new.given ≡ self.old.given }
        ensures synced { All (λ call. call.stage ≢ Some stage.Syncs) self.new.calls }
        ensures within { BeginsWithin self.old self.new }
    {
        let began = rt.monotonic().ok();
        let mut kept = set.keep();
        let mut has_synced = false;
        for at in 0..self.calls.len() {
            let asking = &mut self.calls[at];
            let synced = asking.sync(rt, set, &mut kept);
            has_synced = has_synced || synced;
        }
        if has_synced {
            self.gathering.note_sync(time_since(rt, began));
            self.crowd.forget_out();
        }
    }

    /// Plays each call to its answer.
    pub(crate) fn finish<D, G, R, O>(
        &mut self,
        rt: &R,
        set: &Set<D, G, N>,
        observer: &O,
        buffer: &mut [u8],
    )
    where
        D: Disk,
        G: StepGate,
        R: Wait + Clock,
        O: Observer,
        requires { Promises N.board N.format S.promised S.listed }
        ensures given { self.new.given ≡ self.old.given }
        ensures rests { self.new.free ≡ self.new.given }
    {
        self.ends = true;
        'plays: for _ in rt.forever() {
            if self.rests() {
                break;
            }
            self.play_all(rt, set, observer, buffer);
            self.sync_all(rt, set);
        }
    }

    /// Answers each client whose requests wait, by a pass that is free and has seen what the clients have. The set has halted, which is what it
    /// tells then. Nothing is begun after it.
    pub(crate) fn answer_last<D, G, R, O>(
        &mut self,
        rt: &R,
        set: &Set<D, G, N>,
        observer: &O,
        buffer: &mut [u8],
    )
    where
        D: Disk,
        G: StepGate,
        R: Wait + Clock,
        O: Observer,
        requires rests { self.old.free ≡ self.old.given }
        requires promised { Promises N.board N.format S.promised S.listed }
        ensures given { self.new.given ≡ self.old.given }
        ensures rests { self.new.free ≡ self.new.given }
    {
        let meeting = self.meeting.take();
        let Some(mut free) = first_of(meeting, &mut self.free) else {
            return;
        };
        answer_each(rt, set, &mut self.crowd, &mut free, observer, buffer);
        self.meeting = Some(free);
    }

    /// Tells the observer of each client that has left since it was told last.
    pub(crate) fn tell_parted<O: Observer>(&mut self, observer: &O)
        ensures given { self.new.given ≡ self.old.given }
        ensures free { self.new.free ≡ self.old.free }
        ensures within { BeginsWithin self.old self.new }
    {
        for _ in self.parted..self.crowd.parted() {
            observer.parted();
        }
        self.parted = self.crowd.parted();
    }

    /// Whether a client was told that the service halted, or so many connections were served; 0 for no end.
    pub(crate) fn is_done(&self, sessions: u64) -> bool {
        self.ends || sessions != 0 && self.crowd.admitted() >= sessions && self.crowd.is_empty()
    }

    /// Whether a reply has told that the service halted.
    pub(crate) fn halted(&self) -> bool {
        self.halted
    }

    /// Whether no pass answers a request.
    pub(crate) fn rests(&self) -> bool
        ensures { result ≡ true → self.now.free ≡ self.now.given }
    {
        self.calls.is_empty()
    }
}

// Where the call stands that is played after so many of these, forward or backward.
fn place_after(done: usize, count: usize, backward: bool) -> Option<usize>
    ensures { IfSome result (λ at. (at < count) × (done < count)) }
{
    let left = count.checked_sub(done)?.checked_sub(1)?;
    Some(if backward { left } else { done })
}

// How long it is since then, where the clock can tell.
fn time_since<R: Clock>(rt: &R, began: Option<Duration>) -> Option<Duration> {
    let began = began?;
    let now = rt.monotonic().ok()?;
    Some(now.saturating_sub(began))
}

// Answers each client whose requests wait by this pass, which has seen what the clients have.
fn answer_each<S, D, G, N, B, R, O>(
    rt: &R,
    set: &Set<D, G, N>,
    crowd: &mut Crowd<S>,
    free: &mut FreePass<N, B>,
    observer: &O,
    buffer: &mut [u8],
)
where
    S: Stream,
    D: Disk,
    G: StepGate,
    N: Named,
    B: Given,
    R: Wait + Clock,
    O: Observer,
    requires promised { Promises N.board N.format S.promised S.listed }
    requires seen { HaveSeenIn crowd.old (part free.old.pass).known }
    ensures kept { KeepsAwaited crowd.old crowd.new }
    ensures seen { HaveSeenIn crowd.new (part free.new.pass).known }
{
    'places: for token in 0..crowd.most() {
        answer_one(rt, set, crowd, token, free, observer, buffer);
    }
    crowd.tend_back(observer, buffer);
}
