//! The pages that a loop lists.
ghost use Rattle.std.specs.Prelude.{◌≡◌, true};
ghost use Rattle.lz_board.specs.Seats.{part};
ghost use Rattle.lz_serve.specs.Clients.{HaveSeenIn, KeepsAwaited, MayTellPage};
ghost use Rattle.lz_serve.specs.Desks.{BeginsWithin};
ghost use Rattle.lz_serve.specs.Grants.{Promises};
ghost use Rattle.lz_serve.specs.Halts.{SawHalt};

use crate::crowd::Crowd;
use crate::desk::Desk;
use crate::free_pass::{FreePass, put_free};
use crate::given::Given;
use crate::observer::Observer;
use crate::stream::Stream;
use lz_disk::Disk;
use lz_set::{Named, Set, StepGate};
use std::alloc::Global;
use std::time::Clock;

impl<S: Stream, N: Named, B: Given> Desk<S, N, B> {
    /// Lists pages as `list_pages` does, unless commands wait and pages had their share of the time, which is a small part of it.
    pub(crate) fn list_in_turn<D, G, R, O>(
        &mut self,
        rt: &R,
        set: &Set<D, G, N>,
        observer: &O,
        buffer: &mut [u8],
    )
    where
        D: Disk,
        G: StepGate,
        R: Clock + AllocGlobal,
        O: Observer,
        requires { Promises N.board N.format S.promised S.listed }
        ensures given { self.new.given ≡ self.old.given }
        ensures free { self.new.free ≡ self.old.free }
        ensures within { BeginsWithin self.old self.new }
    {
        if self.crowd.scans() == 0 {
            return;
        }
        let began = rt.monotonic().ok();
        if self.has_commands() && self.pacing.holds(began) {
            return;
        }
        self.list_pages(rt.alloc(), set, observer, buffer);
        self.pacing.note(began, rt.monotonic().ok());
    }

    /// Lists a page for each client that waits for one, and tells it: by the pass that meets the others, or where there is none by the only one,
    /// once that is free.
    pub(crate) fn list_pages<D: Disk, G: StepGate, O: Observer>(
        &mut self,
        alloc: Global,
        set: &Set<D, G, N>,
        observer: &O,
        buffer: &mut [u8],
    )
        requires { Promises N.board N.format S.promised S.listed }
        ensures given { self.new.given ≡ self.old.given }
        ensures free { self.new.free ≡ self.old.free }
        ensures within { BeginsWithin self.old self.new }
    {
        for _ in 0..self.crowd.scans() {
            self.list_page(alloc, set, observer);
        }
        self.crowd.tend_back(observer, buffer);
    }

    // Lists a page for one of them.
    fn list_page<D: Disk, G: StepGate, O: Observer>(
        &mut self,
        alloc: Global,
        set: &Set<D, G, N>,
        observer: &O,
    )
        requires { Promises N.board N.format S.promised S.listed }
        ensures given { self.new.given ≡ self.old.given }
        ensures free { self.new.free ≡ self.old.free }
        ensures within { BeginsWithin self.old self.new }
    {
        if let Some(meeting) = &mut self.meeting {
            let halted = list_one(alloc, set, &mut self.crowd, meeting, observer);
            self.halted = self.halted || halted;
            self.ends = self.ends || halted;
            return;
        }
        let Some(mut free) = self.free.pop() else {
            return;
        };
        let halted = list_one(alloc, set, &mut self.crowd, &mut free, observer);
        put_free(&mut self.free, free);
        self.halted = self.halted || halted;
        self.ends = self.ends || halted;
    }
}

// Lists the page for one client by this pass, which has seen what the clients have, and tells it. It says whether it found that the service
// halted.
fn list_one<S, D, G, N, B, O>(
    alloc: Global,
    set: &Set<D, G, N>,
    crowd: &mut Crowd<S>,
    free: &mut FreePass<N, B>,
    observer: &O,
) -> bool
where
    S: Stream,
    D: Disk,
    G: StepGate,
    N: Named,
    B: Given,
    O: Observer,
    requires promised { Promises N.board N.format S.promised S.listed }
    requires seen { HaveSeenIn crowd.old (part free.old.pass).known }
    ensures kept { KeepsAwaited crowd.old crowd.new }
    ensures seen { HaveSeenIn crowd.new (part free.new.pass).known }
    ensures page { MayTellPage crowd.old crowd.new free.old.pass free.new.pass }
    ensures halted { result ≡ true → SawHalt free.new.pass }
    ensures begun { crowd.new.begun ≡ crowd.old.begun }
{
    let Some((token, awaited)) = crowd.take_scan() else {
        return false;
    };
    let Some(scan) = awaited else {
        return false;
    };
    let Some(listed) = free.list(alloc, set, scan) else {
        crowd.give_up(token);
        return false;
    };
    crowd.tell_page(token, &listed, free.pass(), observer);
    free.halted()
}
