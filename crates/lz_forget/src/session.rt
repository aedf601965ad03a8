//! One client's commands, and what a service of numbers is asked for them.
ghost use Rattle.std.specs.Prelude.{◌≡◌, ◌≤◌, ◌<◌, ◌++◌, IfOk, OnOk, Some, drop, length, true};
ghost use Rattle.lz_resp.specs.Reading.{line_at};
ghost use Rattle.lz_forget.specs.Lives.{IsLive};
ghost use Rattle.lz_forget.specs.Sessions.{Hears, HearsAll, HearsOne, Notes, Passes, begun, beginning, going, is_under_way, noting, passed_at, passing, taking, waits};

mod gathering;
mod rounds;
mod seeking;
mod telling;

use crate::answers::{Answer, Told, answer_on};
use crate::asking::Ask;
use crate::commands::Commands;
use crate::live::{Live, MOST_EPOCHS};
use crate::reading::rest_after;
use crate::wanted::{Reading, Wanted};
use lz_proto::Request;
use lz_resp::{Fault, Naming, Requests, Stop, read_line};
use lz_slot::Key;
use std::alloc::{AllocError, Global};
use std::collections::VecDeque;
use std::marker::Model;
use std::mem;

/// What a session does next.
#[derive(Clone, Copy, Debug, PartialEq, Eq)]
pub enum Next {
    /// It waits, for a frame of the client or for an answer of the service.
    Waits,
    /// It has something to tell or to ask.
    GoesOn,
    /// Its command begins once it is told the rooms (`Session::begin`).
    Begins,
    /// The client's last frame was told.
    Over,
}

// What is under way.
#[derive(Drop)]
enum Stage {
    Rests,
    Over,
    /// Commands of one kind that haven't begun, and the keys of all.
    Holds(Ask, Vec<Told>, Vec<Key>),
    /// The same of a question for the time that is left.
    HoldsTime(u64, Requests),
    /// A reply that is passed on.
    Passes(Reading),
    /// Claims, whose keys are sought in each older room.
    Glances(Vec<Told>, Vec<Key>, Live),
    /// Claims, of which the newest room is asked to add what no older one has.
    Adds(Vec<Told>, Vec<Answer>),
    /// Lookups.
    Finds(Vec<Told>, usize, Live),
    /// The time that is left, in units of so many milliseconds, and for how many milliseconds each epoch is remembered, by age.
    Times(u64, [u64; MOST_EPOCHS as usize]),
    /// Removals, from the room of the epoch of this age.
    Removes(Vec<Told>, Vec<Key>, Live, u8, Vec<Answer>),
}

/// A client's session with a set that forgets. What the client sends is fed to it, and `next` takes one command after the other. Whether the service has
/// a key that it seeks is seen (`see`), or asked (`ask_sought`). The service is given its requests (`next_request`), in their order, each as one frame
/// with this key alone. A command that is passed on is sent there as a text (`asks`). What the service replies to either is heard as a text.
#[derive(Drop)]
pub struct Session {
    alloc: Global,
    commands: Commands,
    stage: Stage,
    // the client's next command, where it can't be carried out with those that are held
    held: Option<Wanted>,
    // what was answered to the requests that were asked together, and how many these are
    answers: Vec<Answer>,
    awaits: usize,
    // the keys of which it is to be seen whether the service has them
    seeks: VecDeque<Key>,
    // what the service is asked without a text
    requests: VecDeque<Request>,
    // what the service is to be sent
    asks: Vec<u8>,
    // what the service has told, and how much of it was taken
    heard: Vec<u8>,
    taken: usize,
    // what the client is to be sent
    says: Vec<u8>,
}

impl Model for Session {
    ghost use Rattle.std.specs.Prelude.{◌≢◌, ◌≤◌, All, drop, length};
    ghost use Rattle.lz_proto.specs.declared.request.Request.TheVariants.{Quit};
    ghost use Rattle.lz_forget.specs.Sessions.{Dialogue, HasLive, work_of};

    ghost Value = { Dialogue };

    ghost view = { λ s. record { reader = s.commands; work = work_of s.stage; held = s.held; answers = s.answers.items; awaits = s.awaits; seeks = s.seeks.items; requests = s.requests.items; asks = s.asks.items; heard = drop s.taken s.heard.items; says = s.says.items } };

    ghost invariant = { λ s. HasLive (work_of s.stage) × (s.taken ≤ length s.heard.items) × All (λ request. request ≢ Quit) s.requests.items };
}

impl Session {
    /// That of a client of a set that forgets after so many seconds. Its texts are hashed as the naming says.
    pub fn new(alloc: Global, seconds: u64, naming: Naming) -> Session
        requires { seconds ≤ 100000000 }
        ensures { result ≡ begun seconds naming }
    {
        Session {
            alloc,
            commands: Commands::new(alloc, seconds, naming),
            stage: Stage::Rests,
            held: None,
            answers: Vec::new(alloc),
            awaits: 0,
            seeks: VecDeque::new(alloc),
            requests: VecDeque::new(alloc),
            asks: Vec::new(alloc),
            heard: Vec::new(alloc),
            taken: 0,
            says: Vec::new(alloc),
        }
    }

    /// The client has sent a piece more.
    pub fn feed(&mut self, piece: &[u8]) -> Result<(), AllocError>
        ensures { OnOk result (self.new ≡ record self.old { reader = record self.old.reader { text = self.old.reader.text ++ piece.now } }) }
    {
        self.commands.feed(piece)
    }

    /// Takes the client's next command, if one has come and none is under way. Commands of one kind are carried out together.
    pub fn next(&mut self) -> Result<Next, AllocError>
        ensures { IfOk result (λ next. (next, self.new) ≡ going self.old) }
    {
        match self.stage {
            Stage::Rests => {}
            Stage::Holds(..) => return self.gather(),
            Stage::HoldsTime(..) => return Ok(Next::Begins),
            Stage::Over => return Ok(Next::Over),
            _ => return Ok(Next::Waits),
        }
        let Some(wanted) = self.upcoming()? else {
            return Ok(Next::Waits);
        };
        self.take(wanted)
    }

    // Takes a command.
    fn take(&mut self, wanted: Wanted) -> Result<Next, AllocError>
        ensures { IfOk result (λ next. (next, self.new) ≡ taking (Some wanted) self.old) }
    {
        match wanted {
            Wanted::Asks(form, requests) => {
                self.hold(form, requests.as_slice())?;
                Ok(Next::GoesOn)
            }
            Wanted::Left(unit, requests) => {
                self.stage = Stage::HoldsTime(unit, requests);
                Ok(Next::Begins)
            }
            Wanted::Passes(reading, text) => {
                self.asks.extend_from_slice(text.as_bytes())?;
                self.stage = Stage::Passes(reading);
                Ok(Next::GoesOn)
            }
            Wanted::Says(text) => {
                self.says.extend_from_slice(text.as_bytes())?;
                Ok(Next::GoesOn)
            }
            Wanted::Ends(text) => {
                self.says.extend_from_slice(text.as_bytes())?;
                self.stage = Stage::Over;
                Ok(Next::Over)
            }
        }
    }

    /// Begins the command that was taken, while the keys of these rooms are remembered: those of each epoch, by its age, for so many milliseconds.
    pub fn begin(
        &mut self,
        live: Live,
        left: &[u64; MOST_EPOCHS as usize],
    ) -> Result<(), AllocError>
        requires { IsLive live }
        ensures { OnOk result (self.new ≡ beginning live left.now self.old) }
    {
        match mem::replace(&mut self.stage, Stage::Rests) {
            Stage::Holds(ask, told, keys) => self.ask(ask, told, keys, live),
            Stage::HoldsTime(unit, requests) => self.ask_time(unit, requests, live, left),
            other => {
                self.stage = other;
                Ok(())
            }
        }
    }

    /// Whether a command is under way that was told the rooms.
    pub fn is_under_way(&self) -> bool
        ensures { result ≡ is_under_way self.now.work }
    {
        matches!(
            self.stage,
            Stage::Glances(..)
                | Stage::Adds(..)
                | Stage::Finds(..)
                | Stage::Times(..)
                | Stage::Removes(..)
        )
    }

    /// Whether it waits for the service's answers.
    pub fn waits(&self) -> bool
        ensures { result ≡ waits self.now.work }
    {
        self.is_under_way() || matches!(self.stage, Stage::Passes(_))
    }

    /// What the service is to be sent.
    pub fn asks(&self) -> &[u8]
        ensures { result.now ≡ self.now.asks }
    {
        self.asks.as_slice()
    }

    /// So many bytes of it were sent.
    pub fn asked(&mut self, count: usize)
        ensures { self.new ≡ record self.old { asks = drop count self.old.asks } }
    {
        drop_front(&mut self.asks, count);
    }

    /// What the client is to be sent.
    pub fn says(&self) -> &[u8]
        ensures { result.now ≡ self.now.says }
    {
        self.says.as_slice()
    }

    /// So many bytes of it were sent.
    pub fn said(&mut self, count: usize)
        ensures { self.new ≡ record self.old { says = drop count self.old.says } }
    {
        drop_front(&mut self.says, count);
    }

    /// The service has told a piece more. What is no reply to what was asked is a fault.
    pub fn hear(&mut self, piece: &[u8]) -> Result<(), Stop>
        ensures { OnOk result (Hears piece.now self.old self.new) }
    {
        self.keep(piece)?;
        self.hear_all()
    }

    // Keeps a piece of what the service tells.
    fn keep(&mut self, piece: &[u8]) -> Result<(), AllocError>
        ensures { OnOk result (self.new ≡ record self.old { heard = self.old.heard ++ piece.now }) }
    {
        drop_front(&mut self.heard, self.taken);
        self.taken = 0;
        self.heard.extend_from_slice(piece)
    }

    // Hears replies, as long as whole ones have come.
    fn hear_all(&mut self) -> Result<(), Stop>
        ensures { OnOk result (HearsAll self.old self.new) }
    {
        'replies: while self.hear_one()? {}
        Ok(())
    }

    // Hears a reply, if a whole one has come, and says whether one has.
    fn hear_one(&mut self) -> Result<bool, Stop>
        ensures heard { IfOk result (λ whole. HearsOne whole self.old self.new) }
        ensures fewer { IfOk result (λ whole. whole ≡ true → length self.new.heard < length self.old.heard) }
    {
        match self.passing() {
            Some(reading) => self.hear_passed(reading),
            None => self.hear_answer(),
        }
    }

    // How the reply is read that is passed on, if one is.
    fn passing(&self) -> Option<Reading>
        ensures { result ≡ passing self.now.work }
    {
        match self.stage {
            Stage::Passes(reading) => Some(reading),
            _ => None,
        }
    }

    // The same of one that is passed on.
    fn hear_passed(&mut self, reading: Reading) -> Result<bool, Stop>
        ensures heard { IfOk result (λ whole. Passes (passed_at reading self.old.heard) whole self.old self.new) }
        ensures fewer { IfOk result (λ whole. whole ≡ true → length self.new.heard < length self.old.heard) }
    {
        let heard = &self.heard[self.taken..];
        let Some(rest) = rest_after(self.alloc, reading, heard)? else {
            return Ok(false);
        };
        let count = heard.len() - rest.len();
        if count == 0 {
            return Err(Stop::Faulty(Fault::Count));
        }
        self.says.extend_from_slice(&heard[..count])?;
        self.taken += count;
        self.stage = Stage::Rests;
        Ok(true)
    }

    // The same of an answer.
    fn hear_answer(&mut self) -> Result<bool, Stop>
        ensures heard { IfOk result (λ whole. Notes (line_at Fault.Count self.old.heard) whole self.old self.new) }
        ensures fewer { IfOk result (λ whole. whole ≡ true → length self.new.heard < length self.old.heard) }
    {
        let heard = &self.heard[self.taken..];
        let Some((line, rest)) = read_line(Fault::Count, heard)? else {
            return Ok(false);
        };
        let Some(answer) = answer_on(line) else {
            return Err(Stop::Faulty(Fault::Count));
        };
        let count = heard.len() - rest.len();
        if count == 0 {
            return Err(Stop::Faulty(Fault::Count));
        }
        self.taken += count;
        self.note(answer)?;
        Ok(true)
    }

    // Notes an answer, after the last one of those that were asked together what they come to.
    fn note(&mut self, answer: Answer) -> Result<(), AllocError>
        ensures its { OnOk result (self.new ≡ noting answer self.old) }
        ensures heard { self.new.heard ≡ self.old.heard }
    {
        self.answers.push(answer)?;
        if self.answers.len() < self.awaits {
            return Ok(());
        }
        self.complete()
    }
}

// Takes so many bytes off the front.
fn drop_front(bytes: &mut Vec<u8>, count: usize)
    ensures { bytes.new.items ≡ drop count bytes.old.items }
{
    let count = count.min(bytes.len());
    let left = bytes.len() - count;
    bytes.copy_within(count.., 0);
    bytes.truncate(left);
}
