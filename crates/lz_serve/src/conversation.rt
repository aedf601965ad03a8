//! The conversation of one connection, as a value.
ghost use Rattle.std.specs.Prelude.{◌≡◌, ◌≢◌, ◌↔◌, ◌⊎◌, ◌≤◌, ◌+◌, ◌-◌, [], ◌∷◌, ◌++◌, drop, length, slice_get, slice_set, suc, take, Some, None, true, false, IfOk, IfSome, IsSome, IsTrue, OnErr, OnOk};
ghost use Rattle.lz_resp.specs.declared.query.Query.{Query as AQuery};
ghost use Rattle.lz_serve.specs.declared.line.Line.{Line as ALine};
ghost use Rattle.lz_serve.specs.declared.turn.Turn.{Turn as ATurn};
ghost use Rattle.lz_serve.specs.Conversations.{Fed, Finished, IsOver, IsReady, IsText, Noted, Queried, Rests, Told, nothing_yet};
ghost use Rattle.lz_serve.specs.Grants.{key_asked};
ghost use Rattle.lz_serve.specs.Lines.{AreReplied, IsFree, StandsAt, awaited, replied};

mod alone;
mod page;
mod stop;

use crate::exchanges::Exchanges;
use crate::language::Language;
use crate::line::{Line, count_ready, is_awaited, key_asked};
use crate::reader::Reader;
use crate::telling::{end_by, gather, push_replies, query_end};
use crate::turn::{Turn, Wording};
use lz_proto::{End, Reply, Request};
use lz_resp::{Figures, Query};
use std::alloc::{AllocError, Global};
use std::collections::VecDeque;
use std::marker::Model;

/// What one client has sent and is to be sent. Contracts see it as what it holds; `IsAt` says where it stands. Requests that were handed
/// out are under way, and an exchange is told once each of its requests has its reply and those before it were told, whichever is granted
/// first.
#[derive(Drop)]
pub struct Conversation {
    language: Language,
    // none once the client's text has ended
    reader: Option<Reader>,
    exchanges: Exchanges,
    // how many requests were handed out, how many of them were told their replies, and the others
    lines: u64,
    told: u64,
    under: VecDeque<Line>,
    // how many first ones of them have their replies
    ready: usize,
    // room for the replies of an exchange
    replies: Vec<Reply>,
    text: Vec<u8>,
    ended: End,
}

impl Model for Conversation {
    ghost use Rattle.std.specs.Prelude.{◌≡◌, ◌≢◌, ◌+◌, All, length};
    ghost use Rattle.lz_proto.specs.declared.request.Request.TheVariants.{Quit};
    ghost use Rattle.lz_serve.specs.Conversations.{Talk};
    ghost use Rattle.lz_serve.specs.Lines.{AreReady};

    ghost Value = { Talk };

    ghost view = { λ c. record { spoken = c.language; reader = c.reader; turns = c.exchanges.turns; waiting = c.exchanges.waiting; told = c.told; under = c.under.items; unsent = c.text.items; ended = c.ended; stops = c.exchanges.stops } };

    ghost invariant = { λ c. (c.lines ≡ c.told + length c.under.items) × AreReady c.ready c.under.items };
}

impl Conversation {
    pub fn new(alloc: Global, language: Language) -> Conversation
        ensures { result ≡ nothing_yet language }
    {
        Conversation {
            language,
            reader: Some(Reader::new(alloc, language)),
            exchanges: Exchanges::new(alloc),
            lines: 0,
            told: 0,
            under: VecDeque::new(alloc),
            ready: 0,
            replies: Vec::new(alloc),
            text: Vec::new(alloc),
            ended: End::Done,
        }
    }

    /// Takes the next piece of the client's text, which is refused once the service stops. Where memory runs out a part of what it comes to may be lost.
    pub fn feed(&mut self, piece: &[u8]) -> Result<(), AllocError>
        requires { IsSome self.old.reader }
        ensures ok { OnOk result (Fed piece.now self.old self.new) }
        ensures goes { IsSome self.new.reader }
        ensures others { self.new ≡ record self.old { reader = self.new.reader; turns = self.new.turns; waiting = self.new.waiting } }
    {
        match &mut self.reader {
            Some(reader) => reader.feed(piece, &mut self.exchanges),
            None => Ok(()),
        }
    }

    /// The client's text has ended.
    pub fn finish(&mut self) -> Result<(), AllocError>
        requires { IsSome self.old.reader }
        ensures ok { OnOk result (Finished self.old self.new) }
        ensures others { self.new ≡ record self.old { reader = None; turns = self.new.turns; waiting = self.new.waiting } }
    {
        match self.reader.take() {
            Some(reader) => reader.end(&mut self.exchanges),
            None => Ok(()),
        }
    }

    /// The next request, which is under way then, unless one that asked for the same key awaits its reply.
    pub fn next(&mut self) -> Result<Option<Request>, AllocError>
        ensures asked { IfOk result (λ request. IfSome request (λ asked. (self.old.waiting ≡ asked ∷ drop 1 self.old.waiting) × (self.new ≡ record self.old { waiting = drop 1 self.old.waiting; under = self.old.under ++ awaited asked ∷ [] }))) }
        ensures free { IfOk result (λ request. IfSome request (λ asked. IsFree self.old.under (key_asked asked))) }
        ensures asks { IfOk result (λ request. IfSome request (λ asked. (asked ≢ Request.Quit) × (self.old.ended ≡ End.Done))) }
        ensures none { IfOk result (λ request. request ≡ None → self.new ≡ self.old) }
        ensures rests { IfOk result (λ request. request ≡ None → Rests self.new) }
        ensures err { OnErr result (self.new ≡ self.old) }
    {
        let Some(request) = self.waiting() else {
            return Ok(None);
        };
        if self.lines == u64::MAX || is_awaited(&self.under, self.ready, key_asked(&request)) {
            return Ok(None);
        }
        self.under.reserve(1)?;
        self.under.push_back_reserved(Line::new(&request));
        self.lines += 1;
        self.exchanges.take();
        Ok(Some(request))
    }

    /// Notes the reply to the request of this number, if that asked this and awaits its reply, and says whether it does.
    pub fn note(&mut self, number: u64, request: Request, reply: Reply) -> bool
        ensures noted { result ≡ true → Noted number request reply self.old self.new }
        ensures none { result ≡ false → self.new ≡ self.old }
        ensures heard { result ≡ false → StandsAt self.old.told number request self.old.under → ⊥ }
    {
        let Some(at) = self.find(number, &request) else {
            return false;
        };
        put_reply(&mut self.under, at, reply);
        self.ready = count_ready(&self.under, self.ready);
        true
    }

    /// Tells the first exchange that wasn't told, if its requests have their replies, and says whether they do. `Halted` ends the
    /// conversation, and so does `quit`. What is asked of the service itself is told by `tell_query`, a page by `tell_page`.
    pub fn tell(&mut self) -> Result<bool, AllocError>
        ensures told { IfOk result (λ told. told ≡ true → (turn : ATurn) × (self.old.turns ≡ turn ∷ drop 1 self.old.turns) × (self.old.ended ≡ End.Done) × Told turn self.old self.new) }
        ensures none { IfOk result (λ told. told ≡ false → self.new ≡ self.old) }
        ensures rests { IfOk result (λ told. told ≡ false → self.old.ended ≡ End.Done → (turn : ATurn) → self.old.turns ≡ turn ∷ drop 1 self.old.turns → IsReady turn self.old.under → ⊥) }
        ensures err { OnErr result (self.new ≡ record self.old { unsent = self.new.unsent }) }
    {
        let turn = match (self.ended, self.exchanges.first()) {
            (End::Done, Some(turn)) => turn,
            _ => return Ok(false),
        };
        match turn {
            Turn::Asks(wording, count) => {
                let (wording, count) = (*wording, *count);
                self.tell_replies(wording, count)
            }
            Turn::Says(text) => {
                self.text.extend_from_slice(text.as_bytes())?;
                self.exchanges.pass();
                Ok(true)
            }
            Turn::Lists(_) | Turn::Tells(_) => Ok(false),
            Turn::Ends(text) => {
                self.text.extend_from_slice(text.as_bytes())?;
                self.exchanges.pass();
                self.ended = End::Quit;
                Ok(true)
            }
        }
    }

    /// Tells the first exchange that wasn't told, if it asks nothing, and says whether it does.
    pub fn tell_text(&mut self) -> Result<bool, AllocError>
        ensures told { IfOk result (λ told. told ≡ true → (turn : ATurn) × (self.old.turns ≡ turn ∷ drop 1 self.old.turns) × (self.old.ended ≡ End.Done) × Told turn self.old self.new) }
        ensures none { IfOk result (λ told. told ≡ false → self.new ≡ self.old) }
        ensures rests { IfOk result (λ told. told ≡ false → self.old.ended ≡ End.Done → (turn : ATurn) → self.old.turns ≡ turn ∷ drop 1 self.old.turns → IsText turn → ⊥) }
        ensures err { OnErr result (self.new ≡ record self.old { unsent = self.new.unsent }) }
        ensures others { self.new ≡ record self.old { turns = self.new.turns; unsent = self.new.unsent; ended = self.new.ended } }
    {
        match self.exchanges.first() {
            Some(Turn::Says(_) | Turn::Ends(_)) => self.tell(),
            _ => Ok(false),
        }
    }

    /// Whether each exchange that has come was told.
    pub fn has_told(&self) -> bool
        ensures { IsTrue result ↔ (self.now.turns ≡ []) }
    {
        self.exchanges.are_told()
    }

    /// What the first exchange that wasn't told asks of the service itself, if it does.
    pub fn query(&self) -> Option<Query>
        ensures some { IfSome result (λ query. (self.now.ended ≡ End.Done) × (self.now.turns ≡ ATurn.Tells query ∷ drop 1 self.now.turns)) }
        ensures none { result ≡ None → self.now.ended ≡ End.Done → (query : AQuery) → self.now.turns ≡ ATurn.Tells query ∷ drop 1 self.now.turns → ⊥ }
    {
        match (self.ended, self.exchanges.first()) {
            (End::Done, Some(Turn::Tells(query))) => Some(*query),
            _ => None,
        }
    }

    /// Tells that exchange, by what is known of the service then, and says whether there is one. The end of the service ends the conversation.
    pub fn tell_query(&mut self, figures: &Figures) -> Result<bool, AllocError>
        ensures told { IfOk result (λ told. told ≡ true → (query : AQuery) × (self.old.turns ≡ ATurn.Tells query ∷ drop 1 self.old.turns) × (self.old.ended ≡ End.Done) × Queried query figures.now self.old self.new) }
        ensures none { IfOk result (λ told. told ≡ false → self.new ≡ self.old) }
        ensures rests { IfOk result (λ told. told ≡ false → self.old.ended ≡ End.Done → (query : AQuery) → self.old.turns ≡ ATurn.Tells query ∷ drop 1 self.old.turns → ⊥) }
        ensures err { OnErr result (self.new ≡ self.old) }
        ensures others { self.new ≡ record self.old { turns = self.new.turns; unsent = self.new.unsent; ended = self.new.ended } }
    {
        let Some(query) = self.query() else {
            return Ok(false);
        };
        let text = query.text(*self.text.allocator(), figures)?;
        self.text.extend_from_slice(text.as_bytes())?;
        self.exchanges.pass();
        self.ended = query_end(query, figures);
        Ok(true)
    }

    /// The text that is to be sent.
    pub fn unsent(&self) -> &[u8]
        ensures { result.now ≡ self.now.unsent }
    {
        self.text.as_slice()
    }

    /// So many bytes of it were sent.
    pub fn sent(&mut self, count: usize)
        requires { count ≤ length self.old.unsent }
        ensures { self.new ≡ record self.old { unsent = drop count self.old.unsent } }
    {
        let left = self.text.len() - count;
        if left > 0 {
            self.text.rotate_left(count);
        }
        self.text.truncate(left);
    }

    /// How many requests were handed out.
    pub fn lines(&self) -> u64
        ensures { result ≡ self.now.told + length self.now.under }
    {
        self.lines
    }

    /// How many were told their replies.
    pub fn told(&self) -> u64
        ensures { result ≡ self.now.told }
    {
        self.told
    }

    /// Whether requests are under way.
    pub fn is_asked(&self) -> bool
        ensures some { IsTrue result ↔ (self.now.under ≢ []) }
        ensures none { result ≡ false → self.now.under ≡ [] }
    {
        !self.under.is_empty()
    }

    /// Whether a request before the one of this number awaits its reply. (One that doesn't may be told with those after it.)
    pub fn awaits_before(&self, number: u64) -> bool
        ensures none { result ≡ false → AreReplied (take (number - suc self.now.told) self.now.under) }
        ensures some { result ≡ true → AreReplied (take (number - suc self.now.told) self.now.under) → ⊥ }
    {
        let count = number.saturating_sub(self.told).saturating_sub(1);
        self.ready < self.under.len() && (self.ready as u64) < count
    }

    /// Whether requests wait.
    pub fn waits(&self) -> bool
        ensures some { IsTrue result ↔ (self.now.waiting ≢ []) }
        ensures none { result ≡ false → self.now.waiting ≡ [] }
    {
        self.exchanges.waits()
    }

    /// Whether no further exchange will be told.
    pub fn is_over(&self) -> bool
        ensures { IsTrue result ↔ IsOver self.now }
    {
        if self.ended != End::Done {
            return true;
        }
        self.reader.is_none() && self.exchanges.are_told()
    }

    /// Gives all room back that isn't used. (A block that was only made smaller would stand in the way of another one's growth.)
    pub fn rest(&mut self)
        ensures { self.new ≡ self.old }
    {
        if let Some(reader) = &mut self.reader {
            reader.rest();
        }
        self.exchanges.rest();
        self.under.shrink_to(0);
        self.replies.clear();
        self.replies.shrink_to(0);
        self.text.shrink_to(0);
    }

    /// For how many turns, requests and replies, and for how many bytes, read or to be sent, it has room.
    pub fn room(&self) -> (usize, usize)
        ensures unsent { length self.now.unsent ≤ result.1 }
    {
        let lines = self.under.capacity().max(self.replies.capacity());
        let read = self.reader.as_ref().map_or(0, Reader::room);
        (
            self.exchanges.room().saturating_add(lines),
            self.text.capacity().max(read),
        )
    }

    // The request that waits, while the conversation goes on.
    fn waiting(&self) -> Option<Request>
        ensures some { IfSome result (λ request. (self.now.ended ≡ End.Done) × (self.now.waiting ≡ request ∷ drop 1 self.now.waiting)) }
        ensures asks { IfSome result (λ request. request ≢ Request.Quit) }
        ensures none { result ≡ None → (self.now.ended ≢ End.Done) ⊎ (self.now.waiting ≡ []) }
    {
        match self.ended {
            End::Done => self.exchanges.request(),
            _ => None,
        }
    }

    // Where among the requests under way the one of this number stands, if it asked this and awaits its reply.
    fn find(&self, number: u64, request: &Request) -> Option<usize>
        ensures some { IfSome result (λ at. (at ≡ number - suc self.now.told) × StandsAt self.now.told number request.now self.now.under) }
        ensures none { result ≡ None → StandsAt self.now.told number request.now self.now.under → ⊥ }
    {
        if number <= self.told {
            return None;
        }
        let at = (number - self.told - 1) as usize;
        match self.under.get(at) {
            Some(line) => {
                if line.request == *request && line.reply.is_none() {
                    return Some(at);
                }
                None
            }
            None => None,
        }
    }

    // Tells the replies to the first requests under way, if each has come.
    fn tell_replies(&mut self, wording: Wording, count: usize) -> Result<bool, AllocError>
        requires turn { self.old.turns ≡ Turn.Asks wording count ∷ drop 1 self.old.turns }
        requires goes_on { self.old.ended ≡ End.Done }
        ensures told { IfOk result (λ told. told ≡ true → Told (Turn.Asks wording count) self.old self.new) }
        ensures none { IfOk result (λ told. told ≡ false → self.new ≡ self.old) }
        ensures rests { IfOk result (λ told. told ≡ false → IsReady (Turn.Asks wording count) self.old.under → ⊥) }
        ensures err { OnErr result (self.new ≡ record self.old { unsent = self.new.unsent }) }
    {
        if self.ready < count {
            return Ok(false);
        }
        if !gather(&self.under, count, &mut self.replies)? {
            return Ok(false);
        }
        push_replies(&mut self.text, wording, self.replies.as_slice())?;
        self.ended = end_by(self.replies.as_slice());
        pass_over(&mut self.under, count);
        self.ready -= count;
        self.told = self.lines - self.under.len() as u64;
        self.exchanges.pass();
        Ok(true)
    }
}

/// Takes so many off the front of a queue.
pub(crate) fn pass_over<T: Drop>(queue: &mut VecDeque<T>, count: usize)
    ensures { queue.new.items ≡ drop count queue.old.items }
{
    for _ in 0..count {
        queue.pop_front();
    }
}

// The line at this place has its reply.
fn put_reply(under: &mut VecDeque<Line>, at: usize, reply: Reply)
    ensures { (line : ALine) → slice_get under.old.items at ≡ Some line → under.new.items ≡ slice_set under.old.items at (replied line.request reply) }
{
    if let Some(line) = under.get_mut(at) {
        line.reply = Some(reply);
    }
}
