//! What a frame comes to.
ghost use Rattle.std.specs.Prelude.{◌≡◌, ◌≢◌, [], ◌∷◌, All};

use crate::form::Form;
use crate::query::Query;
use crate::scan::Scan;
use crate::text::Text;
use lz_proto::Request;
use std::marker::Model;
use std::slice::from_ref;

/// Requests in their order, none of which is `quit`. Contracts see them as a list.
#[derive(Drop, Debug)]
pub struct Requests {
    held: Held,
}

// One, as most frames have, takes no memory of its own.
#[derive(Drop, Debug)]
enum Held {
    One(Request),
    Many(Vec<Request>),
}

impl Model for Requests {
    ghost use Rattle.std.specs.Prelude.{List, ◌≢◌, All};
    ghost use Rattle.lz_proto.specs.declared.request.Request.{Request as ARequest};
    ghost use Rattle.lz_proto.specs.declared.request.Request.TheVariants.{Quit};
    ghost use Rattle.lz_resp.specs.Requests.{requests_held};

    ghost Value = { List ARequest };

    ghost view = { λ r. requests_held r.held };

    ghost invariant = { λ r. All (λ request. request ≢ Quit) (requests_held r.held) };
}

impl Requests {
    pub(crate) fn new(list: Vec<Request>) -> Requests
        requires { All (λ request. request ≢ Request.Quit) list.items }
        ensures { result ≡ list.items }
    {
        Requests {
            held: Held::Many(list),
        }
    }

    pub(crate) fn one(request: Request) -> Requests
        requires { request ≢ Request.Quit }
        ensures { result ≡ request ∷ [] }
    {
        Requests {
            held: Held::One(request),
        }
    }

    pub fn as_slice(&self) -> &[Request]
        ensures same { result.now ≡ self.now }
        ensures asks { All (λ request. request ≢ Request.Quit) result.now }
    {
        match &self.held {
            Held::One(request) => from_ref(request),
            Held::Many(list) => list.as_slice(),
        }
    }
}

/// What a frame comes to.
#[derive(Drop, Debug)]
pub enum Item {
    /// These requests, whose replies are told in this form.
    Asks(Form, Requests),
    /// A reply, and nothing is asked.
    Says(Text),
    /// A page of a room's members is asked for.
    Lists(Scan),
    /// What the service is asked of itself.
    Tells(Query),
    /// The last reply: nothing is read after it.
    Ends(Text),
}
