//! A poller from which only so many connections come.
ghost use Rattle.std.specs.Prelude.{◌≡◌, ◌≤◌, ◌+◌, false, true};

use crate::poller::{Poller, Ready};
use std::io;
use std::marker::{Brand, PhantomData};
use std::time::Duration;

/// Names how many connections had come as a loop began, and after how many more it ends; 0 is no end. Contracts alone see it.
pub(crate) trait Limit {
    ghost use Rattle.std.specs.Prelude.{ℕ};

    ghost before: { ℕ };

    ghost sessions: { ℕ };
}

impl Limit for Brand {
    ghost before = { 0 };

    ghost sessions = { 0 };
}

/// A poller from which as many connections may come as L names, and no more.
pub(crate) struct Limited<P: Poller, L: Limit> {
    poller: P,
    /// Whether there is an end, and how many more may come then.
    ends: bool,
    left: u64,
    of: PhantomData<L>,
    ghost named: { 1 ≤ L.sessions → ends ≡ true },
    ghost limit: { 1 ≤ L.sessions → P.came poller + left ≤ L.before + L.sessions },
}

impl<P: Poller, L: Limit> Limited<P, L> {
    /// One from which so many may come from now on, or any number at 0.
    pub(crate) fn new(poller: P, sessions: u64) -> Limited<P, L>
        requires before { L.before ≡ P.came poller }
        requires sessions { L.sessions ≡ sessions }
    {
        Limited {
            poller,
            ends: sessions != 0,
            left: sessions,
            of: PhantomData,
        }
    }

    /// Whether no more may come.
    pub(crate) fn is_over(&self) -> bool
        ensures { result ≡ false → self.now.ends ≡ true → 1 ≤ self.now.left }
    {
        self.ends && self.left == 0
    }

    /// The poller.
    pub(crate) fn into_poller(self) -> P
        ensures { 1 ≤ L.sessions → P.came result ≤ L.before + L.sessions }
    {
        let Limited {
            poller,
            ends: _,
            left: _,
            of: _,
        } = self;
        poller
    }
}

impl<P: Poller, L: Limit> Poller for Limited<P, L> {
    ghost came = { λ limited. P.came limited.poller };

    type Stream = P::Stream;

    fn poll(&mut self, patience: Duration, ready: &mut Vec<Ready>) {
        self.poller.poll(patience, ready);
    }

    #[tactic(auto, using(crate::proofs::HandedOut::one_at_most))]
    fn accept(&mut self, token: usize) -> io::Result<Option<P::Stream>> {
        if self.is_over() {
            return Ok(None);
        }
        let given = self.poller.accept(token)?;
        if given.is_some() {
            self.left = self.left.saturating_sub(1);
        }
        Ok(given)
    }

    fn is_full(&self) -> bool {
        self.poller.is_full()
    }
}
