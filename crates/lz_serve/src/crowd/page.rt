//! The pages for which clients ask.
ghost use Rattle.std.specs.Prelude.{◌≡◌, [], IfSome, None, length, slice_get};
ghost use Rattle.lz_list.specs.Traces.{Begins};
ghost use Rattle.lz_board.specs.Seats.{part};
ghost use Rattle.lz_serve.specs.Clients.{AwaitsNoneAt, AwaitsPageAt, ChangesAt, HasTold, HaveSeenIn, KeepsAwaited, KeepsReplies, OnlyLeave, TakesScan, TellsPageAt};
ghost use Rattle.lz_serve.specs.Grants.{Promises};

use crate::crowd::Crowd;
use crate::listed::Listed;
use crate::observer::Observer;
use crate::stream::Stream;
use lz_resp::Scan;
use lz_set::{Named, Pass};

impl<S: Stream> Crowd<S> {
    /// How many wait for a page.
    pub fn scans(&self) -> usize
        ensures { result ≡ length self.now.scans }
    {
        self.scans.len()
    }

    /// The token of one that waits for a page, and what it asks for, unless it has left.
    pub(crate) fn take_scan(&mut self) -> Option<(usize, Option<Scan>)>
        ensures taken { IfSome result (λ taken. TakesScan self.old self.new taken.0) }
        ensures asks { IfSome result (λ taken. IfSome taken.1 (AwaitsPageAt self.old taken.0)) }
        ensures left { IfSome result (λ taken. taken.1 ≡ None → AwaitsNoneAt self.old taken.0) }
        ensures none { result ≡ None → (self.old.scans ≡ []) × (self.new ≡ self.old) }
    {
        let token = self.scans.pop()?;
        let scan = self.scan_at(token);
        Some((token, scan))
    }

    // The page that the client of this token awaits, if it awaits one.
    fn scan_at(&self, token: usize) -> Option<Scan>
        ensures some { IfSome result (AwaitsPageAt self.now token) }
        ensures none { result ≡ None → AwaitsNoneAt self.now token }
    {
        match self.places.get(token) {
            Some(place) => place.scan(),
            None => None,
        }
    }

    /// Hands a page to the client of this token. Before that its pass had seen what those had that answered any of the clients, and this pass has
    /// seen what that had after it.
    pub fn tell_page<N: Named, O: Observer>(
        &mut self,
        token: usize,
        listed: &Listed<N>,
        pass: &Pass,
        observer: &O,
    )
        requires promised { Promises N.board N.format S.promised S.listed }
        requires seen { HaveSeenIn self.old (part listed.now.before).known }
        requires grows { Begins (part listed.now.before).known (part listed.now.after).known }
        requires after { Begins (part listed.now.after).known (part pass.now).known }
        ensures kept { KeepsAwaited self.old self.new }
        ensures heard { KeepsReplies self.old self.new }
        ensures paged { TellsPageAt self.old token listed.now.scan self.new }
        ensures told { IfSome (slice_get self.new.clients token) (λ client. IfSome client HasTold) }
        ensures others { ChangesAt token self.old self.new }
        ensures scans { self.new.scans ≡ self.old.scans }
        ensures begun { self.new.begun ≡ self.old.begun }
        ensures seen { HaveSeenIn self.new (part pass.now).known }
    {
        let now = self.clock.now();
        let Some(place) = self.places.get_mut(token) else {
            return;
        };
        place.tell_page(listed, pass, observer, now);
        let is_back = place.give_back();
        self.put_back(token, is_back);
    }

    /// Closes the connection of this token.
    pub(crate) fn give_up(&mut self, token: usize)
        ensures leave { OnlyLeave self.old self.new }
        ensures gone { IfSome (slice_get self.new.clients token) (λ client. client ≡ None) }
        ensures others { ChangesAt token self.old self.new }
        ensures scans { self.new.scans ≡ self.old.scans }
    {
        self.close(token);
    }

    // A client waits for a page. There is room for it.
    pub(crate) fn put_scan(&mut self, token: usize)
        ensures { OnlyLeave self.old self.new }
    {
        if self.scans.push(token).is_err() {
            self.close(token);
        }
    }
}
