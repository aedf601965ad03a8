//! The place of one connection.
ghost use Rattle.std.specs.Prelude.{◌≡◌, ℕ, IfSome, IsSomeAnd, None, Some, false, true};
ghost use Rattle.lz_list.specs.Traces.{Begins};
ghost use Rattle.lz_board.specs.Seats.{part};
ghost use Rattle.lz_serve.specs.Clients.{AwaitsBefore, AwaitsNoPage, AwaitsPage, ComesAfter, HasNone, HasRepliedBefore, HasSeenIn, HasTold, IsAskedBy, IsHeardOf, IsOwnOf, KeepsHeard, KeepsLines, KeepsLinesOf, KeepsOwn, KeepsSeen, Remains, TellsOf, TellsPageOf};
ghost use Rattle.lz_serve.specs.Grants.{Promises};

mod back;
mod sight;
mod stop;
mod wish;

use crate::asking::Granted;
use crate::client::{Client, Question};
use crate::clock::Clock;
use crate::listed::Listed;
use crate::observer::Observer;
use crate::stream::Stream;
use lz_resp::Scan;
use lz_set::{Named, Pass};
use std::time::Duration;
use stop::may_read;
pub(crate) use wish::Wish;
use wish::{rest_of, see_off, wish_of};

/// How many pieces of one client are read in a turn, at most.
const MOST_READS: usize = 16;

/// For how many milliseconds a client whose session is over is waited for.
const FAREWELL_MS: u64 = 100;

/// What a turn gave.
#[derive(Drop)]
pub(crate) struct Turn {
    pub(crate) question: Option<Question>,
    /// It has one more line for a pass.
    pub(crate) is_next: bool,
    /// It is to be tended to, and wasn't noted for that yet.
    pub(crate) is_back: bool,
}

/// The place of one connection.
#[derive(Drop)]
pub(crate) struct Place<S: Stream> {
    client: Option<Client<S>>,
    /// There may be something to read.
    readable: bool,
    /// It is read until nothing comes, also after less than there was room for.
    drains: bool,
    /// It was answered, or waits for what no poller tells of, and wasn't tended to since.
    back: bool,
    /// It waits for a page, which was noted.
    lists: bool,
    /// Its session is to end once all is sent, whatever waits.
    parts: bool,
    /// Its session is over, and what it still sends is thrown away.
    leaves: bool,
    /// Its service stops, and its client is read so often yet.
    left: Option<usize>,
    /// In which millisecond something came or went last.
    moved: u64,
    /// When its connection was heard last.
    heard: Option<Duration>,
}

impl<S: Stream> Place<S> {
    pub(crate) fn empty() -> Place<S>
        ensures { result.client ≡ None }
    {
        Place {
            client: None,
            readable: false,
            drains: false,
            back: false,
            lists: false,
            parts: false,
            leaves: false,
            left: None,
            moved: 0,
            heard: None,
        }
    }

    /// Takes a client in that is new, at this time.
    pub(crate) fn admit(&mut self, client: Client<S>, clock: &Clock)
        ensures { self.new.client ≡ Some client }
    {
        self.client = Some(client);
        self.readable = true;
        self.drains = false;
        self.back = false;
        self.lists = false;
        self.parts = false;
        self.leaves = false;
        self.left = None;
        self.moved = clock.now();
        self.heard = clock.seen();
    }

    /// Hands a reply to its client, if that is still the one whose line was answered, and says whether this has one for a
    /// pass. This pass has seen what those had that answered the client, this reply included. The observer is told how long ago the connection
    /// was heard.
    pub(crate) fn reply<N: Named, O: Observer>(
        &mut self,
        granted: Granted<N>,
        pass: &Pass,
        observer: &O,
        clock: &Clock,
    ) -> bool
        requires promised { Promises N.board N.format S.promised S.listed }
        requires own { IsOwnOf self.old.client granted.question }
        requires seen { IfSome self.old.client (λ client. Begins client.seen (part pass.now).known) }
        requires after { Begins (part granted.after).known (part pass.now).known }
        ensures stays { Remains self.old.client self.new.client }
        ensures kept { KeepsOwn self.old.client self.new.client }
        ensures heard { IsHeardOf self.new.client granted.question }
        ensures told { TellsOf self.old.client granted.question self.new.client }
        ensures next { result ≡ false → HasNone self.new.client }
        ensures seen { (admitted : ℕ) → HasSeenIn admitted (part pass.now).known self.old.client → HasSeenIn admitted (part pass.now).known self.new.client }
    {
        let Some(client) = &mut self.client else {
            return false;
        };
        client.reply(granted, pass, observer);
        self.moved = clock.now();
        self.tell_time(observer, clock);
        self.may_ask()
    }

    /// The page for which its client waits, if it waits for one.
    pub(crate) fn scan(&self) -> Option<Scan>
        ensures some { IfSome result (λ scan. IsSomeAnd self.now.client (λ a. AwaitsPage a scan)) }
        ensures none { result ≡ None → IfSome self.now.client AwaitsNoPage }
    {
        match &self.client {
            Some(client) => client.next_scan(),
            None => None,
        }
    }

    /// Hands a page to its client. Before that its pass had seen what those had that answered the client, and this pass has seen what that had
    /// after it.
    pub(crate) fn tell_page<N: Named, O: Observer>(
        &mut self,
        listed: &Listed<N>,
        pass: &Pass,
        observer: &O,
        now: u64,
    )
        requires promised { Promises N.board N.format S.promised S.listed }
        requires seen { IfSome self.old.client (λ client. Begins client.seen (part listed.now.before).known) }
        requires grows { Begins (part listed.now.before).known (part listed.now.after).known }
        requires after { Begins (part listed.now.after).known (part pass.now).known }
        ensures stays { Remains self.old.client self.new.client }
        ensures kept { KeepsOwn self.old.client self.new.client }
        ensures heard { KeepsHeard self.old.client self.new.client }
        ensures paged { TellsPageOf self.old.client listed.now.scan self.new.client }
        ensures told { IfSome self.new.client HasTold }
        ensures seen { (admitted : ℕ) → HasSeenIn admitted (part pass.now).known self.old.client → HasSeenIn admitted (part pass.now).known self.new.client }
    {
        self.lists = false;
        self.moved = now;
        if let Some(client) = &mut self.client {
            client.tell_page(listed, pass, observer);
        }
    }

    /// Its connection can be read or written. One whose session is over is waited for no longer because of that.
    pub(crate) fn hear(&mut self, drains: bool, clock: &Clock)
        ensures { self.new.client ≡ self.old.client }
    {
        self.readable = true;
        self.drains = self.drains || drains;
        self.heard = clock.seen();
        if !self.leaves {
            self.moved = clock.now();
        }
    }

    /// Its client's turn: its question to this pass, if it has one. The pass has seen what those had that answered the client.
    pub(crate) fn take_turn(&mut self, pass: &Pass) -> Turn
        requires { IfSome self.old.client (λ client. Begins client.seen (part pass.now).known) }
        ensures before { IfSome result.question (λ question. question.before ≡ pass.now) }
        ensures asked { IfSome result.question (λ question. IsAskedBy self.new.client question) }
        ensures later { IfSome result.question (ComesAfter self.old.client) }
        ensures stays { Remains self.old.client self.new.client }
        ensures kept { KeepsOwn self.old.client self.new.client }
        ensures heard { KeepsHeard self.old.client self.new.client }
        ensures seen { KeepsSeen self.old.client self.new.client }
        ensures last { result.question ≡ None → result.is_next ≡ false }
        ensures none { result.is_next ≡ false → HasNone self.new.client }
    {
        let question = self.ask(pass);
        let is_next = question.is_some() && self.may_ask();
        let is_back = question.is_none() && self.give_back();
        Turn {
            question,
            is_next,
            is_back,
        }
    }

    /// Its client's next question to this pass, if it has one. The pass has seen what those had that answered the client.
    pub(crate) fn ask(&mut self, pass: &Pass) -> Option<Question>
        requires { IfSome self.old.client (λ client. Begins client.seen (part pass.now).known) }
        ensures before { IfSome result (λ question. question.before ≡ pass.now) }
        ensures asked { IfSome result (λ question. IsAskedBy self.new.client question) }
        ensures later { IfSome result (ComesAfter self.old.client) }
        ensures stays { Remains self.old.client self.new.client }
        ensures kept { KeepsOwn self.old.client self.new.client }
        ensures heard { KeepsHeard self.old.client self.new.client }
        ensures seen { KeepsSeen self.old.client self.new.client }
        ensures none { result ≡ None → HasNone self.new.client }
    {
        self.client.as_mut()?.ask(pass)
    }

    /// Whether its client has a line for a pass.
    pub(crate) fn may_ask(&self) -> bool
        ensures { result ≡ false → HasNone self.now.client }
    {
        match &self.client {
            Some(client) => client.may_ask(),
            None => false,
        }
    }

    /// Reads its client once more, if none of its requests waits, nor it for a room to be cleared.
    pub(crate) fn read_last<O: Observer>(&mut self, observer: &O, buffer: &mut [u8])
        ensures { KeepsLinesOf self.old.client self.new.client }
    {
        let Some(client) = &mut self.client else {
            return;
        };
        if !client.waits() && !client.clears() {
            let _ = client.read(buffer, self.drains);
            client.tell_texts(observer);
        }
    }

    /// Does for its client what needs no pass, in this millisecond. Among many that wait (`crowded`), replies of one whose lines wait go out
    /// together.
    pub(crate) fn tend<O: Observer>(
        &mut self,
        observer: &O,
        buffer: &mut [u8],
        crowded: bool,
        now: u64,
    ) -> Wish
        ensures stays { Remains self.old.client self.new.client }
        ensures kept { KeepsOwn self.old.client self.new.client }
        ensures heard { KeepsHeard self.old.client self.new.client }
        ensures seen { KeepsSeen self.old.client self.new.client }
    {
        self.tell_cleared(observer);
        let wish = self.send_and_read(observer, buffer, crowded, now);
        self.note(wish)
    }

    // Tells what came of a room, where its client waits for that to be cleared, and what waited behind that.
    fn tell_cleared<O: Observer>(&mut self, observer: &O)
        ensures stays { Remains self.old.client self.new.client }
        ensures kept { KeepsOwn self.old.client self.new.client }
        ensures heard { KeepsHeard self.old.client self.new.client }
        ensures seen { KeepsSeen self.old.client self.new.client }
    {
        let Some(client) = &mut self.client else {
            return;
        };
        if client.clears() {
            client.tell_all(observer);
        }
    }

    // Sends what is unsent, and reads. What a sending brought about is read after it.
    fn send_and_read<O: Observer>(
        &mut self,
        observer: &O,
        buffer: &mut [u8],
        crowded: bool,
        now: u64,
    ) -> Wish
        ensures { KeepsLinesOf self.old.client self.new.client }
    {
        let Some(client) = &mut self.client else {
            return Wish::Nothing;
        };
        if self.leaves {
            return see_off(client, buffer);
        }
        let holds_back = crowded && !self.parts && client.holds_back();
        if !holds_back && client.has_unsent() {
            client.write();
        }
        if (self.readable || client.has_come()) && !self.parts {
            self.readable = client.is_occupied()
                || may_read(&mut self.left) && read_pieces(client, observer, buffer, self.drains);
        }
        // What was told of the pieces that were read.
        if !holds_back && client.has_unsent() {
            client.write();
        }
        if client.is_over() || self.parts && !client.has_unsent() {
            self.leaves = true;
            self.moved = now;
            client.leave();
            return see_off(client, buffer);
        }
        if self.parts || client.has_unsent() && !holds_back {
            return rest_of(client);
        }
        let readable = self.readable || self.left != Some(0) && client.has_come();
        wish_of(client, &mut self.lists, readable)
    }

    /// Its session is to end once all is sent, whatever waits.
    pub(crate) fn part(&mut self)
        ensures { self.new.client ≡ self.old.client }
    {
        self.parts = true;
    }

    /// Whether an earlier line of its client isn't answered.
    pub(crate) fn has_earlier(&self, line: u64) -> bool
        ensures none { result ≡ false → IfSome self.now.client (HasRepliedBefore line) }
        ensures some { result ≡ true → AwaitsBefore line self.now.client }
    {
        match &self.client {
            Some(client) => client.has_earlier(line),
            None => false,
        }
    }

    /// Whether its session is over.
    pub(crate) fn leaves(&self) -> bool {
        self.leaves
    }

    /// Whether its client is to be closed since nothing came or went for more milliseconds than so. One whose session is over isn't
    /// waited for so long. One that waits for its turn (`queued`) isn't closed before that, unless its session is to end.
    pub(crate) fn is_idle(&self, now: u64, idle: Option<u64>, queued: bool) -> bool {
        match &self.client {
            Some(client)
                if (self.leaves || self.parts || !queued && !self.lists && !self.back)
                    && !client.is_asked() => {}
            _ => return false,
        }
        let still = now.saturating_sub(self.moved);
        match idle {
            Some(most) if still > most => true,
            _ => self.leaves && still >= FAREWELL_MS,
        }
    }

    /// Closes its connection, and says whether there was one.
    pub(crate) fn close(&mut self) -> bool
        ensures { self.new.client ≡ None }
    {
        let was_taken = self.client.is_some();
        self.client = None;
        self.leaves = false;
        was_taken
    }
}

// Reads pieces of a client's text, and tells what of them needs no pass, until there is something else to do for it. It says whether there may
// be more to read.
fn read_pieces<S: Stream, O: Observer>(
    client: &mut Client<S>,
    observer: &O,
    buffer: &mut [u8],
    drains: bool,
) -> bool
    ensures { KeepsLines client.old client.new }
{
    let mut readable = true;
    for _ in 0..MOST_READS {
        if !readable || client.is_occupied() {
            break;
        }
        readable = client.read(buffer, drains);
        client.tell_texts(observer);
    }
    readable
}
