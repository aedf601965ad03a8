//! The service of one pass of a set.
ghost use Rattle.std.specs.Prelude.{◌≡◌, false};
ghost use Rattle.lz_set.specs.Names.{MayCall};
ghost use Rattle.lz_serve.specs.Replies.{SeatAnswers};

use crate::asking::grant;
use crate::client::Question;
use lz_disk::Disk;
use lz_proto::{Reply, Request, Service};
use lz_set::{Named, Pass, Set, StepGate};
use std::sync::Wait;
use std::time::Clock;

/// Serves requests by one pass of a set. It may wait for other passes.
pub struct Seated<'a, D: Disk, G: StepGate, N: Named, R: Wait + Clock> {
    rt: &'a R,
    set: &'a Set<D, G, N>,
    pass: Pass,
    ghost may_call: { MayCall N.board pass },
}

impl<'a, D: Disk, G: StepGate, N: Named, R: Wait + Clock> Drop for Seated<'a, D, G, N, R> {
    fn drop(self) {
        let Seated {
            rt: _,
            set: _,
            pass: _,
        } = self;
    }
}

impl<'a, D: Disk, G: StepGate, N: Named, R: Wait + Clock> Seated<'a, D, G, N, R> {
    pub fn new(rt: &'a R, set: &'a Set<D, G, N>, pass: Pass) -> Seated<'a, D, G, N, R>
        requires { MayCall N.board pass }
        ensures { result.pass ≡ pass }
    {
        Seated { rt, set, pass }
    }

    /// Ends the service, and hands its pass back.
    pub fn into_pass(self) -> Pass
        ensures same { result ≡ self.entry.pass }
        ensures may_call { MayCall N.board result }
    {
        let Seated {
            rt: _,
            set: _,
            pass,
        } = self;
        pass
    }
}

impl<'a, D: Disk, G: StepGate, N: Named, R: Wait + Clock> Service for Seated<'a, D, G, N, R> {
    ghost answers = { λ old request reply new. SeatAnswers N.board N.format false old.pass request reply new.pass };

    fn ask(&mut self, request: Request) -> Reply {
        let question = Question::of_none(request, &self.pass);
        let granted = grant(self.rt, self.set, &mut self.pass, question);
        granted.reply()
    }
}
