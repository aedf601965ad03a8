//! One sync for the writes of many callers.
use lz_machine::Kind;
use std::sync::atomic::{AtomicUsize, Ordering};
use std::sync::{Condvar, MutexGuard, Wait};
use std::thread;

// How often the last call that came to a sync yields to clients that were just answered and may call again, before it goes on
// without them.
const LOOKS: u32 = 100;

/// Has a sync wait until all calls that run have come to a sync of their own, and lets one of them cover what they all wrote:
/// group commit (DeWitt and others, "Implementation Techniques for Main Memory Database Systems", 1984). It says who goes on
/// when, and nothing else. A Sync whose slot is covered already calls no device, and doesn't come here: its call goes on.
///
/// A call that may write runs from when it comes until it is answered, but not while it waits here, for a sync or for a node, and
/// not while a gate may hold it. A lookup runs from a sync for which it waited until it is answered. A call that its owner
/// plays on as a value never runs, and never waits here. The counts go down only under the lock, so nobody goes to sleep over a
/// count that has just become 0.
///
/// No call waits for ever. Whoever runs waits for nothing but the lock, whose holders, a `HeldLock`'s too, wait for nothing but the
/// device (each sync returns, also one that fails). So whoever runs comes to an answer, to a sync or to a taken node, and runs
/// no more. With the last of them the sync is played: by that call itself, where it came to a sync, and else by one of those
/// that wait, which it wakes. While new calls come all the time, as many answers as there are passes end the wait. After the
/// sync all that waited for it go on, whatever it gave: over a dead device each is told so by its own. A node is held by a call
/// that runs, or waits for a sync, or is in a gate, or is a value; the first two are done with it by and by, and the owner of
/// the last is to play it on. Each wakes those that wait for the node. A call finds it taken and goes to sleep in one hold of the
/// lock, so it misses none that is freed.
#[derive(Drop)]
pub(crate) struct GroupCommit {
    // How many syncs had a group to close: the number of the open one.
    groups: AtomicUsize,
    // How many calls run.
    running: AtomicUsize,
    // How many wait for the sync of the open group.
    parked: AtomicUsize,
    // How many calls were answered meanwhile.
    answered: AtomicUsize,
    // How many were answered since the last sync whose clients haven't called again.
    out: AtomicUsize,
    // Where they wait.
    closed: Condvar,
    // How many wait for a node, and how often one may have been freed.
    busy: AtomicUsize,
    frees: AtomicUsize,
    freed: Condvar,
}

/// How far a call has come, as others count it.
#[derive(Drop)]
pub(crate) struct Stay {
    // Syncs wait for it.
    awaited: bool,
    // It is one of those that run.
    runs: bool,
    // The group whose sync it waits for, or waited for last.
    group: usize,
    // It has closed a group, and hasn't yet woken those that waited.
    wakes: bool,
}

impl GroupCommit {
    pub(crate) fn new() -> GroupCommit {
        GroupCommit {
            groups: AtomicUsize::new(0),
            running: AtomicUsize::new(0),
            parked: AtomicUsize::new(0),
            answered: AtomicUsize::new(0),
            out: AtomicUsize::new(0),
            closed: Condvar::new(),
            busy: AtomicUsize::new(0),
            frees: AtomicUsize::new(0),
            freed: Condvar::new(),
        }
    }

    // The number of the group that is open: what is written now is covered by the sync that closes it.
    fn group(&self) -> usize {
        self.groups.load(Ordering::SeqCst)
    }

    /// A call comes. Where syncs are to wait for it, it runs from now on.
    pub(crate) fn come(&self, awaited: bool) -> Stay {
        let mut stay = Stay {
            awaited,
            runs: false,
            group: 0,
            wakes: false,
        };
        self.run(&mut stay);
        if awaited && self.out.load(Ordering::SeqCst) != 0 {
            self.out.fetch_sub(1, Ordering::SeqCst);
        }
        stay
    }

    // Waits a little for clients that were just answered.
    fn look_out(&self) {
        for _ in 0..LOOKS {
            if self.out.load(Ordering::SeqCst) == 0 || self.running.load(Ordering::SeqCst) != 0 {
                return;
            }
            thread::yield_now();
        }
    }

    /// The call runs from now on, where syncs wait for it.
    pub(crate) fn run(&self, stay: &mut Stay) {
        if stay.awaited && !stay.runs {
            stay.runs = true;
            self.running.fetch_add(1, Ordering::SeqCst);
        }
    }

    /// The call runs no more. Its caller holds the lock.
    pub(crate) fn rest(&self, stay: &mut Stay) {
        if !stay.runs {
            return;
        }
        stay.runs = false;
        let running = self.running.fetch_sub(1, Ordering::SeqCst);
        if running == 1 && self.parked.load(Ordering::SeqCst) != 0 {
            self.closed.notify_one();
        }
    }

    /// The call is answered. Its caller holds the lock. Of so many answers one wakes a sync.
    pub(crate) fn part(&self, stay: &mut Stay, most: usize) {
        if self.parked.load(Ordering::SeqCst) != 0 {
            let answered = self.answered.fetch_add(1, Ordering::SeqCst);
            if answered.wrapping_add(1) == most {
                self.closed.notify_one();
            }
        }
        if stay.awaited {
            self.out.fetch_add(1, Ordering::SeqCst);
        }
        self.rest(stay);
    }

    /// A call has played an event of this kind. Its caller holds the lock.
    pub(crate) fn played(&self, kind: Kind) {
        if matches!(kind, Kind::Release | Kind::Halt) {
            self.free();
        }
    }

    /// Waits until the group that is open now is closed, or it is the call's turn to close it.
    pub(crate) fn await_sync<'a, T, R: Wait>(
        &self,
        rt: &R,
        locked: MutexGuard<'a, T>,
        stay: &mut Stay,
        most: usize,
    ) -> MutexGuard<'a, T> {
        let mut locked = locked;
        stay.group = self.group();
        self.rest_to_sync(stay);
        let mut has_looked = false;
        for _ in rt.forever() {
            if self.group() != stay.group {
                // Whoever closed it has counted the call among those that run.
                stay.runs = true;
                return locked;
            }
            let is_last = self.running.load(Ordering::SeqCst) == 0;
            let waits = has_looked || self.out.load(Ordering::SeqCst) == 0;
            if (is_last && waits) || self.answered.load(Ordering::SeqCst) >= most {
                self.parked.fetch_sub(1, Ordering::SeqCst);
                self.run(stay);
                return locked;
            }
            self.wake(stay);
            if is_last {
                has_looked = true;
                let lock = MutexGuard::unlock(locked);
                self.look_out();
                locked = lock.lock(rt);
            } else {
                has_looked = false;
                locked = self.closed.wait(rt, locked);
            }
        }
        unreachable!()
    }

    // The call waits for the open group's sync. It wakes nobody: it looks itself whether it was the last that ran.
    fn rest_to_sync(&self, stay: &mut Stay) {
        self.parked.fetch_add(1, Ordering::SeqCst);
        if stay.runs {
            stay.runs = false;
            self.running.fetch_sub(1, Ordering::SeqCst);
        }
    }

    /// Closes the group for which the call waited, where it is open: all that waited for it run again, before they are awake,
    /// so that the next sync waits for them. The caller holds the lock, and has synced.
    pub(crate) fn close(&self, stay: &mut Stay) {
        if self.group() != stay.group {
            return;
        }
        self.out.store(0, Ordering::SeqCst);
        self.groups.fetch_add(1, Ordering::SeqCst);
        self.answered.store(0, Ordering::SeqCst);
        let parked = self.parked.swap(0, Ordering::SeqCst);
        if parked != 0 {
            self.running.fetch_add(parked, Ordering::SeqCst);
            stay.wakes = true;
        }
    }

    /// Wakes those that waited for a group which the call has closed: best once the lock was given back.
    pub(crate) fn wake(&self, stay: &mut Stay) {
        if stay.wakes {
            stay.wakes = false;
            self.closed.notify_all();
        }
    }

    /// Waits until a node may have been freed. The call has found the one that it claims taken in this hold of the lock.
    pub(crate) fn await_node<'a, T, R: Wait>(
        &self,
        rt: &R,
        locked: MutexGuard<'a, T>,
        stay: &mut Stay,
    ) -> MutexGuard<'a, T> {
        let mut locked = locked;
        let frees = self.frees.load(Ordering::SeqCst);
        self.busy.fetch_add(1, Ordering::SeqCst);
        self.rest(stay);
        self.wake(stay);
        for _ in rt.forever() {
            locked = self.freed.wait(rt, locked);
            if self.frees.load(Ordering::SeqCst) != frees {
                // Whoever freed it has counted the call among those that run.
                stay.runs = true;
                return locked;
            }
        }
        unreachable!()
    }

    // A node may have been freed: all that wait for one run again.
    fn free(&self) {
        self.frees.fetch_add(1, Ordering::SeqCst);
        let busy = self.busy.swap(0, Ordering::SeqCst);
        if busy != 0 {
            self.running.fetch_add(busy, Ordering::SeqCst);
            self.freed.notify_all();
        }
    }
}
