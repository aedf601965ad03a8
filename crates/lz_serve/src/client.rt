//! One client.
ghost use Rattle.std.specs.Prelude.{◌≡◌, ◌≢◌, ◌↔◌, ◌⊎◌, ◌<◌, ◌≤◌, ◌-◌, ◌++◌, [], ◌∷◌, IsTrue, List, None, Some, false, length, suc, take, true};
ghost use Rattle.lz_list.specs.Traces.{Begins};
ghost use Rattle.lz_board.specs.Seats.{part};
ghost use Rattle.lz_proto.specs.declared.end.End.TheVariants.{Done};
ghost use Rattle.lz_serve.specs.Clients.{AwaitsNoPage, HasLine, HasNoReady, HasNoText, HasTold, HasToldTexts, IsHeard, IsOwn, KeepsLines, KeepsOwn, TellsOf};
ghost use Rattle.lz_serve.specs.Grants.{Grant, IsGrant, IsLater, Posed};
ghost use Rattle.lz_serve.specs.Lines.{AreReplied};
ghost use Rattle.lz_serve.specs.Streams.{IsFresh};

mod page;
mod query;
mod question;
mod requests;
mod sight;
mod stop;

use crate::asking::Granted;
use crate::conversation::{Conversation, pass_over};
use crate::observer::Observer;
use crate::stream::{Received, Stream, Taken};
use lz_set::{Named, Pass};
pub use question::Question;
use std::alloc::Global;
use std::collections::VecDeque;
use std::marker::Model;
use std::snapshot::Snapshot;

/// For how many items and lines, and for how many bytes, a client with nothing to do keeps room: as much as 16 commands at once take.
const FEW: usize = 64;

const LITTLE: usize = 1_024;

/// How many bytes are to be sent at most while lines of the client still wait: its replies go out together.
const HELD: usize = 256;

/// A connection with its conversation. What is sent on it is what the conversation tells.
#[derive(Drop)]
pub struct Client<S: Stream> {
    stream: S,
    talk: Conversation,
    connection: u64,
    /// The pass to which each line under way was put, and the one whose reply came last, as contracts see them.
    puts: VecDeque<Snapshot<Pass>>,
    seen: Option<Snapshot<Pass>>,
    /// The next line waits for a reply to one that is under way.
    held: bool,
    /// The client's text has ended.
    ended: bool,
    /// The connection is lost, or memory was missing for what came: nothing more is sent.
    lost: bool,
}

impl<S: Stream> Model for Client<S> {
    ghost use Rattle.std.specs.Prelude.{◌≡◌, ◌+◌, IsSome, false, length, true};
    ghost use Rattle.lz_serve.specs.Clients.{Asker, passes_of, seen_by};
    ghost use Rattle.lz_serve.specs.Conversations.{IsHeldUp};
    ghost use Rattle.lz_serve.specs.Lines.{AreBefore, AreEarned};
    ghost use Rattle.lz_serve.specs.Streams.{IsTalkOf};

    ghost Value = { Asker };

    ghost view = { λ c. record { connection = c.connection; lines = c.talk.told + length c.talk.under; told = c.talk.told; under = c.talk.under; puts = passes_of c.puts.items; seen = seen_by c.seen; turns = c.talk.turns; waiting = c.talk.waiting; ended = c.talk.ended; lost = c.lost } };

    ghost invariant = { λ c. (c.ended ≡ false → IsSome c.talk.reader)
        × AreEarned S.promised (seen_by c.seen) c.connection c.talk.told c.talk.under (passes_of c.puts.items)
        × (c.lost ≡ false → IsTalkOf (AreBefore S.promised (seen_by c.seen) c.talk.under (passes_of c.puts.items)) S.listed c.connection (S.traffic c.stream) c.talk)
        × (c.held ≡ true → c.lost ≡ false → IsHeldUp c.talk)
        × (c.talk.stops ≡ true → S.asked) };
}

impl<S: Stream> Client<S> {
    /// The client of the connection with this number, of which nothing has come yet.
    pub fn new(alloc: Global, number: u64, stream: S) -> Client<S>
        requires fresh { IsFresh (S.traffic stream) }
        requires promised { S.promised [] }
        ensures { result ≡ record { connection = number; lines = 0; told = 0; under = []; puts = []; seen = []; turns = []; waiting = []; ended = Done; lost = false } }
    {
        let language = stream.language();
        Client {
            stream,
            talk: Conversation::new(alloc, language),
            connection: number,
            puts: VecDeque::new(alloc),
            seen: None,
            held: false,
            ended: false,
            lost: false,
        }
    }

    /// Reads a piece, if there is one, and says whether there may be more that nothing will tell of: no more, where it was less than the buffer
    /// has room for, unless it is to be read until nothing comes (`drains`). The buffer has room for a piece. What the connection asks by itself comes
    /// after that.
    pub(crate) fn read(&mut self, buffer: &mut [u8], drains: bool) -> bool
        ensures { KeepsLines self.old self.new }
    {
        let more = self.receive(buffer, drains);
        self.take_requests();
        more
    }

    // Reads a piece, and says the same.
    fn receive(&mut self, buffer: &mut [u8], drains: bool) -> bool
        ensures { KeepsLines self.old self.new }
    {
        if self.lost || self.ended {
            return false;
        }
        match self.stream.receive(buffer) {
            Received::Count(count) => match self.talk.feed(&buffer[..count]) {
                Ok(()) => drains || count == buffer.len(),
                Err(_) => {
                    self.lost = true;
                    false
                }
            },
            Received::Later => false,
            Received::Over => {
                self.ended = true;
                match self.talk.finish() {
                    Ok(()) => {}
                    Err(_) => self.lost = true,
                }
                false
            }
            Received::Failed => {
                self.lost = true;
                false
            }
        }
    }

    /// Whether something has come for it of which no poller tells.
    pub(crate) fn has_come(&self) -> bool {
        !self.lost && !self.ended && self.stream.has_come()
    }

    /// Whether it waits for what no poller tells of.
    pub(crate) fn stalls(&self) -> bool {
        !self.lost && self.stream.stalls()
    }

    /// Sends what is unsent, until the connection takes no more.
    pub fn write(&mut self)
        ensures { KeepsLines self.old self.new }
    {
        'tries: for _ in 0..u64::MAX {
            if !self.send() {
                return;
            }
        }
    }

    // Sends a beginning of what is unsent, if something is, and says whether some was taken.
    fn send(&mut self) -> bool
        ensures { KeepsLines self.old self.new }
    {
        if self.lost || self.talk.unsent().is_empty() {
            return false;
        }
        match self.stream.take(self.talk.unsent()) {
            Taken::Count(count) => {
                self.talk.sent(count);
                true
            }
            Taken::Later => false,
            Taken::Failed => {
                self.lost = true;
                false
            }
        }
    }

    /// Takes the reply that was granted to a line of its own that awaits one, and no other, and tells those that no earlier line
    /// holds up. This pass has seen what those had that answered the client, this reply included.
    pub fn reply<N: Named, O: Observer>(&mut self, granted: Granted<N>, pass: &Pass, observer: &O)
        requires promised { (grants : List Grant) → S.promised grants → IsGrant N.board N.format granted → IsLater grants granted → S.promised (grants ++ granted ∷ []) }
        requires own { IsOwn self.old granted.question }
        requires seen { Begins self.old.seen (part pass.now).known }
        requires after { Begins (part granted.after).known (part pass.now).known }
        ensures connection { self.new.connection ≡ self.old.connection }
        ensures lines { self.new.lines ≡ self.old.lines }
        ensures kept { KeepsOwn (Some self.old) (Some self.new) }
        ensures heard { IsHeard self.new granted.question }
        ensures told { TellsOf (Some self.old) granted.question (Some self.new) }
        ensures seen { self.new.seen ≡ (part pass.now).known }
    {
        self.seen = Some(Snapshot::of(pass));
        let question = granted.question();
        if question.connection() != self.connection {
            return;
        }
        let reply = granted.reply();
        if self.talk.note(question.line(), question.request(), reply) {
            self.held = false;
            self.tell_all(observer);
        }
    }

    /// Tells the exchanges at the front that ask for no key.
    pub(crate) fn tell_texts<O: Observer>(&mut self, observer: &O)
        ensures lines { KeepsLines self.old self.new }
        ensures told { HasToldTexts self.new }
    {
        'turns: while self.tell_next(observer) {}
    }

    // Tells the first exchange, if it asks for no key, and says whether it did.
    fn tell_next<O: Observer>(&mut self, observer: &O) -> bool
        ensures lines { KeepsLines self.old self.new }
        ensures fewer { result ≡ true → length self.new.turns < length self.old.turns }
        ensures same { result ≡ false → self.new.turns ≡ self.old.turns }
        ensures told { result ≡ false → HasToldTexts self.new }
    {
        self.tell_text() || self.tell_query(observer)
    }

    // Tells the first exchange, if it is a text, and says whether it did.
    fn tell_text(&mut self) -> bool
        ensures lines { KeepsLines self.old self.new }
        ensures fewer { result ≡ true → length self.new.turns < length self.old.turns }
        ensures same { result ≡ false → self.new.turns ≡ self.old.turns }
        ensures rests { result ≡ false → self.new.lost ≡ false → (self.new ≡ self.old) × HasNoText self.old }
    {
        if self.lost {
            return false;
        }
        match self.talk.tell_text() {
            Ok(told) => told,
            Err(_) => {
                self.lost = true;
                false
            }
        }
    }

    /// Tells each exchange that can be told.
    pub(crate) fn tell_all<O: Observer>(&mut self, observer: &O)
        ensures connection { self.new.connection ≡ self.old.connection }
        ensures lines { self.new.lines ≡ self.old.lines }
        ensures kept { KeepsOwn (Some self.old) (Some self.new) }
        ensures heard { (q : Posed) → IsHeard self.old q → IsHeard self.new q }
        ensures told { HasTold self.new }
        ensures seen { self.new.seen ≡ self.old.seen }
        ensures lost { self.old.lost ≡ true → self.new ≡ self.old }
        ensures fewer { length self.new.turns ≤ length self.old.turns }
    {
        'turns: while self.tell_one(observer) {}
    }

    // Tells the first exchange, if it can be told, and says whether it did.
    fn tell_one<O: Observer>(&mut self, observer: &O) -> bool
        ensures connection { self.new.connection ≡ self.old.connection }
        ensures lines { self.new.lines ≡ self.old.lines }
        ensures kept { KeepsOwn (Some self.old) (Some self.new) }
        ensures heard { (q : Posed) → IsHeard self.old q → IsHeard self.new q }
        ensures seen { self.new.seen ≡ self.old.seen }
        ensures lost { self.old.lost ≡ true → self.new ≡ self.old }
        ensures fewer { result ≡ true → length self.new.turns < length self.old.turns }
        ensures same { result ≡ false → self.new.turns ≡ self.old.turns }
        ensures told { result ≡ false → HasTold self.new }
    {
        !self.talk.has_told() && (self.tell() || self.tell_query(observer))
    }

    // Tells the first exchange, if its requests have their replies, and says whether it did.
    fn tell(&mut self) -> bool
        ensures connection { self.new.connection ≡ self.old.connection }
        ensures lines { self.new.lines ≡ self.old.lines }
        ensures kept { KeepsOwn (Some self.old) (Some self.new) }
        ensures heard { (q : Posed) → IsHeard self.old q → IsHeard self.new q }
        ensures seen { self.new.seen ≡ self.old.seen }
        ensures lost { self.old.lost ≡ true → self.new ≡ self.old }
        ensures fewer { result ≡ true → length self.new.turns < length self.old.turns }
        ensures same { result ≡ false → self.new.turns ≡ self.old.turns }
        ensures rests { result ≡ false → self.new.lost ≡ false → (self.new ≡ self.old) × HasNoReady self.old }
    {
        if self.lost {
            return false;
        }
        let before = self.talk.told();
        match self.talk.tell() {
            Ok(told) => {
                self.held = false;
                pass_over(&mut self.puts, (self.talk.told() - before) as usize);
                told
            }
            Err(_) => {
                self.lost = true;
                false
            }
        }
    }

    /// Whether something is still to be sent.
    pub(crate) fn has_unsent(&self) -> bool {
        !self.lost && !self.talk.unsent().is_empty()
    }

    /// Whether lines are under way.
    pub(crate) fn is_asked(&self) -> bool
        ensures { IsTrue result ↔ (self.now.under ≢ []) }
    {
        self.talk.is_asked()
    }

    /// Whether a line before the one of this number isn't answered.
    pub(crate) fn has_earlier(&self, line: u64) -> bool
        ensures none { result ≡ false → AreReplied (take (line - suc self.now.told) self.now.under) }
        ensures some { result ≡ true → AreReplied (take (line - suc self.now.told) self.now.under) → ⊥ }
    {
        self.talk.awaits_before(line)
    }

    /// Whether it has a line for which a pass may be had.
    pub(crate) fn may_ask(&self) -> bool
        ensures none { result ≡ false → HasLine self.now → ⊥ }
        ensures some { result ≡ true → (self.now.lost ≡ false) × (self.now.waiting ≢ []) }
    {
        !self.held && self.waits()
    }

    /// Whether lines have come that weren't handed out.
    pub(crate) fn waits(&self) -> bool
        ensures none { result ≡ false → self.now.lost ≡ false → self.now.waiting ≡ [] }
        ensures some { result ≡ true → (self.now.lost ≡ false) × (self.now.waiting ≢ []) }
    {
        !self.lost && self.talk.waits()
    }

    /// Whether what is unsent is held back: lines wait, whose replies are to go out with it.
    pub(crate) fn holds_back(&self) -> bool {
        self.waits()
            && !self.lists()
            && !self.clears()
            && !self.talk.is_over()
            && self.talk.unsent().len() < HELD
    }

    /// Whether nothing more is to be told.
    pub(crate) fn is_over(&self) -> bool
        ensures none { result ≡ false → self.now.lost ≡ false }
        ensures some { result ≡ true → self.now.lost ≡ false → (self.now.ended ≢ Done) ⊎ (self.now.turns ≡ []) }
    {
        self.lost || self.talk.is_over() && self.talk.unsent().is_empty()
    }

    /// Whether there is more to do for it before it is read again.
    pub(crate) fn is_occupied(&self) -> bool
        ensures { result ≡ false → (self.now.lost ≡ false) × (self.now.waiting ≡ []) × AwaitsNoPage self.now }
    {
        self.is_over() || self.has_unsent() || self.waits() || self.lists() || self.clears()
    }

    /// Where it has nothing to do, and has more room than a little, it gives all of it back.
    pub(crate) fn rest(&mut self)
        ensures { self.new ≡ self.old }
    {
        let (items, bytes) = self.talk.room();
        if (items > FEW || bytes > LITTLE) && !self.is_occupied() && !self.is_asked() {
            self.talk.rest();
            self.puts.shrink_to(0);
        }
    }

    /// Tells nothing more.
    pub(crate) fn leave(&mut self)
        ensures { KeepsLines self.old self.new }
    {
        self.lost = true;
        self.stream.leave();
    }

    /// Throws a piece away that came after the end, and says whether there may be more at once; none where nothing more will come.
    pub(crate) fn pass_over(&mut self, buffer: &mut [u8]) -> Option<bool>
        ensures { KeepsLines self.old self.new }
    {
        self.lost = true;
        match self.stream.receive(buffer) {
            Received::Count(_) => Some(true),
            Received::Later => Some(false),
            Received::Over | Received::Failed => None,
        }
    }
}
