//! What has come of a client's text and wasn't told.
ghost use Rattle.std.specs.Prelude.{◌≡◌, ◌≢◌, ◌++◌, ◌∷◌, [], All, IfSome, IsTrue, None, OnOk, drop, false, take, true, ◌↔◌};
ghost use Rattle.lz_serve.specs.Exchanges.{adding, asked_alone, asks, form_of, of_frame, of_line};
ghost use Rattle.lz_serve.specs.Refusals.{cut_turns, kept_waiting, taken_turn};

use crate::refusing::{keep_begun, refuse_all, taken};
use crate::turn::{Turn, Wording};
use lz_proto::{Item as LineItem, Request, bad_text};
use lz_resp::{Form, Item as FrameItem, Text};
use std::alloc::{AllocError, Global};
use std::collections::VecDeque;
use std::marker::Model;

/// The turns of exchanges, and the requests of theirs that wait.
#[derive(Drop)]
pub struct Exchanges {
    alloc: Global,
    turns: VecDeque<Turn>,
    requests: VecDeque<Request>,
    // the service stops: what comes is refused
    stops: bool,
}

impl Model for Exchanges {
    ghost use Rattle.std.specs.Prelude.{◌≢◌, All};
    ghost use Rattle.lz_proto.specs.declared.request.Request.TheVariants.{Quit};
    ghost use Rattle.lz_serve.specs.Exchanges.{Pending};

    ghost Value = { Pending };

    ghost view = { λ e. record { turns = e.turns.items; waiting = e.requests.items; stops = e.stops } };

    ghost invariant = { λ e. All (λ request. request ≢ Quit) e.requests.items };
}

impl Exchanges {
    pub(crate) fn new(alloc: Global) -> Exchanges
        ensures { result ≡ record { turns = []; waiting = []; stops = false } }
    {
        Exchanges {
            alloc,
            turns: VecDeque::new(alloc),
            requests: VecDeque::new(alloc),
            stops: false,
        }
    }

    pub(crate) fn allocator(&self) -> Global {
        self.alloc
    }

    /// What a line comes to has come.
    pub(crate) fn put_line(&mut self, item: LineItem) -> Result<(), AllocError>
        ensures ok { OnOk result (self.new ≡ adding (of_line item ∷ []) self.old) }
        ensures stops { self.new.stops ≡ self.old.stops }
    {
        match item {
            LineItem::Asks(Request::Quit) => self.put_turn(Turn::Ends(Text::of(self.alloc, b"")?)),
            LineItem::Asks(request) => self.put_request(Wording::Line, request),
            LineItem::Faulty(bad) => {
                let text = Text::of(self.alloc, bad_text(bad).as_bytes())?;
                self.put_turn(Turn::Says(text))
            }
        }
    }

    /// What a frame comes to has come.
    pub(crate) fn put_frame(&mut self, item: FrameItem) -> Result<(), AllocError>
        ensures ok { OnOk result (self.new ≡ adding (of_frame item ∷ []) self.old) }
        ensures stops { self.new.stops ≡ self.old.stops }
    {
        match item {
            FrameItem::Asks(form, requests) => {
                self.put_requests(Wording::Frame(form), requests.as_slice())
            }
            FrameItem::Says(text) => self.put_turn(Turn::Says(text)),
            FrameItem::Lists(scan) => self.put_turn(Turn::Lists(scan)),
            FrameItem::Tells(query) => self.put_turn(Turn::Tells(query)),
            FrameItem::Ends(text) => self.put_turn(Turn::Ends(text)),
        }
    }

    /// A request has come by itself.
    pub(crate) fn put_alone(&mut self, request: Request) -> Result<(), AllocError>
        requires { request ≢ Request.Quit }
        ensures ok { OnOk result (self.new ≡ adding (asked_alone request ∷ []) self.old) }
        ensures stops { self.new.stops ≡ self.old.stops }
    {
        self.put_request(Wording::Frame(form_of(&request)), request)
    }

    /// The first turn.
    pub(crate) fn first(&self) -> Option<&Turn>
        ensures some { IfSome result (λ turn. self.now.turns ≡ turn.now ∷ drop 1 self.now.turns) }
        ensures none { result ≡ None → self.now.turns ≡ [] }
    {
        self.turns.front()
    }

    /// The first turn is over.
    pub(crate) fn pass(&mut self)
        ensures { self.new ≡ record self.old { turns = drop 1 self.old.turns } }
    {
        self.turns.pop_front();
    }

    /// The first request that waits.
    pub(crate) fn request(&self) -> Option<Request>
        ensures some { IfSome result (λ request. self.now.waiting ≡ request ∷ drop 1 self.now.waiting) }
        ensures asks { IfSome result (λ request. request ≢ Request.Quit) }
        ensures none { result ≡ None → self.now.waiting ≡ [] }
    {
        self.requests.front().copied()
    }

    /// The first request waits no more.
    pub(crate) fn take(&mut self)
        ensures { self.new ≡ record self.old { waiting = drop 1 self.old.waiting } }
    {
        self.requests.pop_front();
    }

    /// The service stops. Where so many requests of these turns were begun, each turn of which none was is refused, and so is what comes.
    pub(crate) fn stop(&mut self, begun: usize) -> Result<(), AllocError>
        ensures ok { OnOk result (self.new ≡ record { turns = cut_turns begun self.old.turns; waiting = take (kept_waiting begun self.old.turns) self.old.waiting; stops = true }) }
        ensures stops { self.new.stops ≡ true }
    {
        self.stops = true;
        let mut cut = VecDeque::new(self.alloc);
        let waiting = keep_begun(begun, &mut self.turns, &mut cut)?;
        refuse_all(self.alloc, &mut self.turns, &mut cut)?;
        self.turns = cut;
        self.requests.truncate(waiting);
        Ok(())
    }

    /// Whether requests wait.
    pub(crate) fn waits(&self) -> bool
        ensures some { IsTrue result ↔ (self.now.waiting ≢ []) }
        ensures none { result ≡ false → self.now.waiting ≡ [] }
    {
        !self.requests.is_empty()
    }

    /// Whether each exchange was told.
    pub(crate) fn are_told(&self) -> bool
        ensures { IsTrue result ↔ (self.now.turns ≡ []) }
    {
        self.turns.is_empty()
    }

    /// Gives the room back that isn't used.
    pub(crate) fn rest(&mut self)
        ensures { self.new ≡ self.old }
    {
        self.turns.shrink_to(0);
        self.requests.shrink_to(0);
    }

    /// For how many turns and requests it has room.
    pub(crate) fn room(&self) -> usize {
        self.turns
            .capacity()
            .saturating_add(self.requests.capacity())
    }

    // A turn that asks nothing, or is refused.
    fn put_turn(&mut self, turn: Turn) -> Result<(), AllocError>
        ensures ok { OnOk result (self.new ≡ record self.old { turns = self.old.turns ++ taken_turn self.old.stops turn ∷ [] }) }
        ensures stops { self.new.stops ≡ self.old.stops }
    {
        let turn = taken(self.alloc, self.stops, turn)?;
        self.turns.push_back(turn)?;
        Ok(())
    }

    // A request alone, and the turn of its reply.
    fn put_request(&mut self, wording: Wording, request: Request) -> Result<(), AllocError>
        requires { request ≢ Request.Quit }
        ensures ok { OnOk result (self.new ≡ adding (asks wording (request ∷ []) ∷ []) self.old) }
        ensures stops { self.new.stops ≡ self.old.stops }
    {
        if self.stops {
            return self.put_turn(Turn::Asks(wording, 1));
        }
        self.requests.reserve(1)?;
        self.turns.push_back(Turn::Asks(wording, 1))?;
        self.requests.push_back_reserved(request);
        Ok(())
    }

    // Requests, and the turn of their replies.
    fn put_requests(&mut self, wording: Wording, requests: &[Request]) -> Result<(), AllocError>
        requires { All (λ request. request ≢ Request.Quit) requests.now }
        ensures ok { OnOk result (self.new ≡ adding (asks wording requests.now ∷ []) self.old) }
        ensures stops { self.new.stops ≡ self.old.stops }
    {
        if self.stops {
            return self.put_turn(Turn::Asks(wording, requests.len()));
        }
        self.turns.push_back(Turn::Asks(wording, requests.len()))?;
        for request in requests {
            self.requests.push_back(*request)?;
        }
        Ok(())
    }
}

// The form of the reply to a request alone.
fn form_of(request: &Request) -> Form
    ensures { result ≡ form_of request.now }
{
    match request {
        Request::Add(_) => Form::Added,
        Request::Remove(_) => Form::Removed,
        Request::Has(_) | Request::Quit => Form::Found,
    }
}
