//! A turn of a loop: what it plays before connections are heard again.
ghost use Rattle.std.specs.Prelude.{◌≡◌, ◌≤◌, ◌+◌};
ghost use Rattle.lz_serve.specs.Desks.{BeginsWithin, most_begun};
ghost use Rattle.lz_serve.specs.Grants.{Promises};

use crate::asking::Asking;
use crate::desk::Desk;
use crate::given::Given;
use crate::moments::MOMENT_MS;
use crate::observer::Observer;
use crate::stream::Stream;
use lz_disk::Disk;
use lz_set::{Named, Set, StepGate};
use std::sync::Wait;
use std::thread;
use std::time::{Clock, Duration};

/// For how many milliseconds it is waited for something to be heard, at most; and while a client is waited for that is to leave, or one is to be
/// tended to in each turn.
const PATIENCE_MS: u64 = 1_000;

const SHORT_PATIENCE_MS: u64 = 100;

/// For how many microseconds a loop sleeps where it holds a sync back, before it listens again.
const GLIMPSE_US: u64 = 20;

/// How many lines a turn may begin, however few passes and clients there are: to listen costs as much as some commands.
const FEWEST: usize = 64;

impl<S: Stream, N: Named, B: Given> Desk<S, N, B> {
    /// Plays a turn. It begins as many lines as there are passes or clients that wait, or 64, at most; those that wait then begin in the next one.
    pub(crate) fn play_turn<D, G, R, O>(
        &mut self,
        rt: &R,
        set: &Set<D, G, N>,
        observer: &O,
        buffer: &mut [u8],
    )
    where
        D: Disk,
        G: StepGate,
        R: Wait + Clock + AllocGlobal,
        O: Observer,
        requires { Promises N.board N.format S.promised S.listed }
        ensures given { self.new.given ≡ self.old.given }
        ensures bound { self.new.begun ≤ self.old.begun + most_begun self.old.most self.old.waiting }
    {
        self.left = self.share();
        self.look_up(set, observer, buffer);
        self.list_in_turn(rt, set, observer, buffer);
        self.begin_all(rt, set);
        self.play_all(rt, set, observer, buffer);
        if self.gathers(rt) {
            self.glimpse(rt);
        } else if !self.rests() {
            self.sync_all(rt, set);
            // Whose sync it was is answered before others are heard, so that they ask again while those are.
            self.play_all(rt, set, observer, buffer);
        }
        self.tell_parted(observer);
    }

    // How many lines a turn begins at most.
    fn share(&self) -> usize
        ensures { result ≡ most_begun self.now.most self.now.waiting }
    {
        FEWEST.max(self.most.max(self.crowd.waiting()))
    }

    // Whether the next sync waits a little, where a pass is free: for lines that wait until others were heard, or for clients that were just
    // answered, by whose calls it would do as well.
    fn gathers<R: Clock>(&mut self, rt: &R) -> bool
        ensures given { self.new.given ≡ self.old.given }
        ensures within { BeginsWithin self.old self.new }
    {
        let waits = !self.crowd.is_quiet();
        if self.calls.is_empty() || self.free.is_empty() || !waits && !self.crowd.has_out() {
            return false;
        }
        match rt.monotonic() {
            Ok(now) => self.gathering.holds(now, waits),
            Err(_) => false,
        }
    }

    // Sleeps a little, unless a line waits that can begin.
    fn glimpse<R: Wait + Clock>(&self, rt: &R) {
        if self.crowd.is_quiet() {
            thread::sleep(rt, Duration::from_micros(GLIMPSE_US));
        }
    }

    /// For how long it is waited for something to be heard: not at all where there is something else to do.
    pub(crate) fn patience(&self) -> Duration {
        let patience = match (self.is_busy(), self.crowd.is_left()) {
            (true, _) if self.only_waits() => MOMENT_MS,
            (true, _) => 0,
            (false, true) => SHORT_PATIENCE_MS,
            (false, false) => PATIENCE_MS,
        };
        Duration::from_millis(patience)
    }

    // Whether each call waits for slots, and no other can begin.
    fn only_waits(&self) -> bool {
        self.calls.iter().all(Asking::waits) && (self.free.is_empty() || self.crowd.is_quiet())
    }

    // Whether there is something to do, with nothing heard of the connections.
    fn is_busy(&self) -> bool {
        self.crowd.scans() > 0 || self.crowd.seeks() || self.has_commands()
    }

    /// Whether no command is under way or waits, and no page. A client may send on.
    pub(crate) fn has_done_all(&self) -> bool {
        self.rests() && self.crowd.scans() == 0 && !self.crowd.has_lines()
    }

    // Whether a command is under way, or one waits that can begin.
    pub(super) fn has_commands(&self) -> bool {
        !self.rests() || !self.free.is_empty() && !self.crowd.is_quiet()
    }
}
