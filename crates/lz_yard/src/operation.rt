//! A call under way.
ghost use Rattle.std.specs.Prelude.{◌≡◌, ◌≤◌};
ghost use Rattle.lz_slot.specs.Limits.{most_buckets, most_passes};
ghost use Rattle.lz_slot.specs.Sets.{key_of};
ghost use Rattle.lz_machine.specs.declared.event.Outcome.TheVariants.{Value};
ghost use Rattle.lz_machine.specs.Calls.{after_see_pin, event_at, first_progress, follows, progress_after};
ghost use Rattle.lz_machine.specs.Laws.{hop_of};
ghost use Rattle.lz_machine.specs.Orders.{HasPass, IsLoading, IsPlaying, IsProgress, MayTake, shape_with};
ghost use Rattle.lz_machine.specs.Runs.{reply_at};
ghost use Rattle.lz_yard.specs.Begun.{begun_after};
ghost use Rattle.lz_yard.specs.Walking.{walk_of, with_look};

use crate::order::{
    after_check, after_claim, after_reserve, count_of, event_of, follower_of, halt_loaded, halts,
    walked,
};
use lz_list::{Hop, Look, Walk, Word};
use lz_machine::{Event, Outcome, Progress, Reply, Sequence};
use lz_slot::Command;
use std::marker::Model;

/// One call of a command, on a yard of so many buckets and passes: the fixed order of its events. It plays none of them
/// itself. Whoever plays the next event hands it the outcome.
///
/// What is made for each event or load is inlined, so that events and words stay in registers: a fifth of what an addition costs.
#[derive(Debug, Drop)]
pub struct Caller {
    command: Command,
    buckets: usize,
    passes: usize,
    progress: Progress,
}

impl Model for Caller {
    ghost use Rattle.lz_machine.specs.Orders.{Calling, IsCalling};

    ghost Value = { Calling };

    ghost view = { λ c. record { command = c.command; buckets = c.buckets; passes = c.passes; progress = c.progress } };

    ghost invariant = { λ c. IsCalling (record { command = c.command; buckets = c.buckets; passes = c.passes; progress = c.progress }) };
}

impl Caller {
    /// A call that was just made: its Invoke was played, unless that answered OldFile, which it is still to take.
    pub fn new(command: Command, buckets: usize, passes: usize) -> Caller
        requires buckets { (1 ≤ buckets) × (buckets ≤ most_buckets) }
        requires passes { (1 ≤ passes) × (passes ≤ most_passes) }
        ensures { result ≡ record { command = command; buckets = buckets; passes = passes; progress = first_progress } }
    {
        Caller {
            command,
            buckets,
            passes,
            progress: Progress::Playing(Sequence::Pinning, 0),
        }
    }

    /// A call whose Invoke answered so. One that the file's format refuses is about to tell it.
    pub fn begun(command: Command, buckets: usize, passes: usize, outcome: Outcome) -> Caller
        requires buckets { (1 ≤ buckets) × (buckets ≤ most_buckets) }
        requires passes { (1 ≤ passes) × (passes ≤ most_passes) }
        ensures { result ≡ record { command = command; buckets = buckets; passes = passes; progress = begun_after outcome } }
    {
        let mut caller = Caller::new(command, buckets, passes);
        if let Outcome::OldFile = outcome {
            caller.progress = Progress::Answering(Reply::OldFile);
        }
        caller
    }

    pub fn command(&self) -> Command
        ensures { result ≡ self.now.command }
    {
        self.command
    }

    /// The reply that the call is about to give: its next event is the Answer.
    #[inline(always)]
    pub fn reply(&self) -> Option<Reply>
        ensures { result ≡ reply_at self.now.progress }
    {
        match self.progress {
            Progress::Answering(reply) => Some(reply),
            _ => None,
        }
    }

    /// The next event. A SeePin names its pass and has value 0: whoever plays it puts the loaded pin word in its place, and
    /// it is still the next event.
    #[inline(always)]
    pub fn next(&self) -> Event
        ensures event { result ≡ event_at (shape_with self.now) self.now.command self.now.progress }
        ensures pass { HasPass self.now.passes result }
    {
        match self.progress {
            Progress::Playing(sequence, index) => event_of(self.command, sequence, index),
            Progress::LoadsHalt => Event::Hop(Word::Halt),
            Progress::Walking(_, look) => Event::Hop(self.walk(look).wants()),
            Progress::Reserving(_) => Event::Reserve,
            Progress::SeeingPins(pass) => Event::SeePin(pass, 0),
            Progress::Claiming(_, pred, curr) => Event::Claim(pred, curr),
            Progress::Checking(_, _) => Event::Check,
            Progress::Answering(_) => Event::Answer,
        }
    }

    /// The word that the next event loads, if that is a load.
    #[inline(always)]
    pub fn wants(&self) -> Option<Word>
        ensures { result ≡ hop_of (event_at (shape_with self.now) self.now.command self.now.progress) }
    {
        match self.progress {
            Progress::LoadsHalt => Some(Word::Halt),
            Progress::Walking(_, look) => Some(self.walk(look).wants()),
            _ => None,
        }
    }

    /// Its walk, if a load of one comes next: whoever walks on apart from the call says by `walk_to` how far it has come.
    #[inline(always)]
    pub fn walking(&self) -> Option<Walk>
        ensures { result ≡ walk_of self.now }
    {
        match self.progress {
            Progress::Walking(_, look) => Some(self.walk(look)),
            _ => None,
        }
    }

    /// Its walk has come so far.
    #[inline(always)]
    pub fn walk_to(&mut self, look: Look)
        ensures { self.new ≡ with_look self.old look }
    {
        if let Progress::Walking(_, at) = &mut self.progress {
            *at = look;
        }
    }

    /// Takes the value of the word that it wanted.
    #[inline(always)]
    pub fn load(&mut self, value: u64)
        requires loading { IsLoading self.old.progress }
        requires takes { MayTake self.old.progress (Value value) }
        ensures { self.new ≡ record self.old { progress = progress_after (shape_with self.old) self.old.command self.old.progress (Value value) } }
    {
        let command = self.command;
        let key = self.command.key();
        let buckets = self.buckets;
        match &mut self.progress {
            Progress::LoadsHalt => self.progress = halt_loaded(value),
            Progress::Walking(aim, look) => {
                let aim = *aim;
                let mut walk = Walk {
                    key,
                    buckets,
                    look: *look,
                };
                match walk.hop(value) {
                    Hop::More => *look = walk.look,
                    Hop::End { pred, curr, met } => self.progress = walked(
                        command, aim, pred, curr, met,
                    ),
                }
            }
            _ => {}
        }
    }

    /// Takes what the next event answered. An outcome that this event can't have leaves the call where it is, or is taken as
    /// the plain one. A call ends in one way, whichever of its events found the device failing or dead, the pass worn, or the
    /// file of an older format than its key.
    #[inline(always)]
    pub fn take(&mut self, outcome: Outcome)
        requires { MayTake self.old.progress outcome }
        ensures { self.new ≡ record self.old { progress = progress_after (shape_with self.old) self.old.command self.old.progress outcome } }
    {
        match outcome {
            Outcome::Fault => self.progress = halts(Reply::Device),
            Outcome::Dead => self.progress = halts(Reply::Halted),
            Outcome::Worn => self.progress = Progress::Answering(Reply::Worn),
            Outcome::OldFile => self.progress = Progress::Answering(Reply::OldFile),
            outcome => self.follow(outcome),
        }
    }

    // After an outcome that doesn't end the call. The Answer ends it, so it stays there.
    #[inline(always)]
    fn follow(&mut self, outcome: Outcome)
        requires { MayTake self.old.progress outcome }
        ensures { self.new ≡ record self.old { progress = follows (shape_with self.old) self.old.command self.old.progress outcome } }
    {
        let command = self.command;
        match self.progress {
            Progress::Playing(_, _) => self.after_event(outcome),
            Progress::LoadsHalt => self.after_load(outcome),
            Progress::Walking(_, _) => self.after_load(outcome),
            Progress::Reserving(again) => self.progress = after_reserve(again, outcome),
            Progress::SeeingPins(pass) => self.progress = self.after_see_pin(pass),
            Progress::Claiming(aim, pred, curr) => self.progress = after_claim(
                aim, pred, curr, outcome,
            ),
            Progress::Checking(aim, curr) => self.progress = after_check(
                command, aim, curr, outcome,
            ),
            Progress::Answering(_) => {}
        }
    }

    fn walk(&self, look: Look) -> Walk
        ensures walk { result ≡ record { key = key_of self.now.command; buckets = self.now.buckets; look = look } }
        ensures buckets { 1 ≤ self.now.buckets }
    {
        Walk {
            key: self.command.key(),
            buckets: self.buckets,
            look,
        }
    }

    // After an event of a sequence. Where a settling came early, the sync before it is played again.
    #[inline(always)]
    fn after_event(&mut self, outcome: Outcome)
        requires { IsPlaying self.old.progress }
        ensures { self.new ≡ record self.old { progress = follows (shape_with self.old) self.old.command self.old.progress outcome } }
    {
        let command = self.command;
        if let Progress::Playing(sequence, index) = &mut self.progress {
            let sequence = *sequence;
            let ended = sequence;
            if let Outcome::Early = outcome {
                *index = index.saturating_sub(1);
            } else if *index + 1 < count_of(command, sequence) {
                *index += 1;
            } else {
                self.progress = follower_of(ended);
            }
        }
    }

    #[inline(always)]
    fn after_load(&mut self, outcome: Outcome)
        requires loading { IsLoading self.old.progress }
        requires takes { MayTake self.old.progress outcome }
        ensures { self.new ≡ record self.old { progress = follows (shape_with self.old) self.old.command self.old.progress outcome } }
    {
        if let Outcome::Value(value) = outcome {
            self.load(value);
        }
    }

    #[inline(always)]
    fn after_see_pin(&self, pass: usize) -> Progress
        requires { pass ≤ self.now.passes }
        ensures follows { result ≡ after_see_pin (shape_with self.now) pass }
        ensures inside { IsProgress self.now.passes self.now.command result }
    {
        if pass < self.passes {
            Progress::SeeingPins(pass + 1)
        } else {
            Progress::Reserving(true)
        }
    }
}
