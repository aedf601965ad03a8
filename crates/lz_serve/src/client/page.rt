//! The pages for which a client asks.
ghost use Rattle.std.specs.Prelude.{◌≡◌, IfSome, None, Some, false};
ghost use Rattle.lz_list.specs.Traces.{Begins};
ghost use Rattle.lz_board.specs.Seats.{part};
ghost use Rattle.lz_serve.specs.Clients.{AwaitsNoPage, AwaitsPage, HasTold, IsHeard, KeepsLines, KeepsOwn, TellsPage};
ghost use Rattle.lz_serve.specs.Grants.{Posed};
ghost use Rattle.lz_serve.specs.Listings.{IsListing, Listing};

use crate::client::Client;
use crate::listed::Listed;
use crate::observer::Observer;
use crate::stream::Stream;
use lz_resp::Scan;
use lz_set::{Named, Pass};
use std::snapshot::Snapshot;

impl<S: Stream> Client<S> {
    /// The page for which it waits, once all was sent that was told before: so what it is told of pages takes the room of one.
    pub(crate) fn scan(&self) -> Option<Scan>
        ensures { IfSome result (AwaitsPage self.now) }
    {
        if self.has_unsent() {
            return None;
        }
        self.next_scan()
    }

    /// Whether it waits for a page, or will once all was sent.
    pub(crate) fn lists(&self) -> bool
        ensures { result ≡ false → AwaitsNoPage self.now }
    {
        self.next_scan().is_some()
    }

    /// The page for which its first exchange asks, if it does.
    pub(crate) fn next_scan(&self) -> Option<Scan>
        ensures some { IfSome result (AwaitsPage self.now) }
        ensures none { result ≡ None → AwaitsNoPage self.now }
    {
        if self.lost {
            return None;
        }
        self.talk.scan()
    }

    /// Takes the page that was listed for it, and no other, and tells what no other exchange holds up. Before that its pass had seen what those
    /// had that answered the client, and this pass has seen what that had after it.
    pub fn tell_page<N: Named, O: Observer>(
        &mut self,
        listed: &Listed<N>,
        pass: &Pass,
        observer: &O,
    )
        requires promised { (l : Listing) → IsListing N.board l → S.listed l }
        requires seen { Begins self.old.seen (part listed.now.before).known }
        requires grows { Begins (part listed.now.before).known (part listed.now.after).known }
        requires after { Begins (part listed.now.after).known (part pass.now).known }
        ensures connection { self.new.connection ≡ self.old.connection }
        ensures lines { self.new.lines ≡ self.old.lines }
        ensures kept { KeepsOwn (Some self.old) (Some self.new) }
        ensures heard { (q : Posed) → IsHeard self.old q → IsHeard self.new q }
        ensures paged { TellsPage self.old listed.now.scan self.new }
        ensures told { HasTold self.new }
        ensures seen { self.new.seen ≡ (part pass.now).known }
    {
        self.put_page(listed);
        self.note_seen(pass);
        self.tell_all(observer);
    }

    // Tells that page, where the first exchange asks for it, and says whether it did.
    fn put_page<N: Named>(&mut self, listed: &Listed<N>) -> bool
        requires promised { (l : Listing) → IsListing N.board l → S.listed l }
        requires seen { Begins self.old.seen (part listed.now.before).known }
        ensures lines { KeepsLines self.old self.new }
        ensures paged { TellsPage self.old listed.now.scan self.new }
    {
        if self.lost {
            return false;
        }
        match self.talk.tell_page(listed) {
            Ok(told) => told,
            Err(_) => {
                self.lost = true;
                false
            }
        }
    }

    // What the client has seen is what this pass has, which is no less.
    fn note_seen(&mut self, pass: &Pass)
        requires { Begins self.old.seen (part pass.now).known }
        ensures { self.new ≡ record self.old { seen = (part pass.now).known } }
    {
        self.seen = Some(Snapshot::of(pass));
    }
}
