//! What an operator is told of a service.
ghost use Rattle.std.specs.Prelude.{◌≡◌, true};
ghost use Rattle.lz_serve.specs.Verbs.{verb_of};

use crate::clearing::Clearings;
use crate::forgetting::Forgetting;
use crate::language::Language;
use crate::lease::{Lease, Tether};
use crate::listener::Listener;
use lz_proto::{Reply, Request};
use lz_resp::{Figures, Naming};
use std::time::Duration;
use std::{fmt, io};

/// What a service stands on.
#[derive(Clone, Copy, Debug)]
pub struct Serving {
    pub slots: usize,
    /// How many members the set begins with.
    pub members: usize,
    pub buckets: usize,
    pub passes: usize,
    /// The loops that serve, where each pass has no connection of its own.
    pub loops: Option<Loops>,
}

/// Loops that serve a set together.
#[derive(Clone, Copy, Debug)]
pub struct Loops {
    pub count: usize,
    /// How many connections they serve at once, all together.
    pub connections: usize,
    /// What their clients speak.
    pub language: Language,
    /// How keys are forgotten, where they are. Then the language is one of texts.
    pub forgetting: Option<&'static Forgetting>,
}

impl Loops {
    ghost use Rattle.std.specs.Prelude.{max, min};

    /// How many of them serve so many passes: none without a pass and a connection of its own, and one in any case.
    pub fn count_for(&self, passes: usize) -> usize
        ensures { result ≡ max 1 (min passes (min self.now.count self.now.connections)) }
    {
        let most = self.count.min(self.connections);
        passes.min(most).max(1)
    }

    /// How many places are left for clients in memory: the keeper of epochs, and what sweeps a room. (Loops that accept at the same time may have a client
    /// too many, each but one.)
    pub(crate) fn places_inside(&self) -> usize {
        if self.forgetting.is_some() {
            self.count.saturating_add(1)
        } else {
            0
        }
    }

    /// What the service speaks with their clients' sessions: numbers in rooms, where keys are forgotten.
    pub(crate) fn language_inside(&self) -> Language {
        match self.forgetting {
            Some(_) => Language::Frames(Naming::Rooms),
            None => self.language,
        }
    }
}

impl fmt::Display for Serving {
    ghost use Rattle.std.specs.Prelude.{Some};
    ghost use Rattle.lz_serve.specs.Texts.{serving_text};

    ghost output = { λ serving. Some (serving_text serving) };

    fn fmt<W: fmt::Write>(&self, f: &mut fmt::Formatter<W>) -> fmt::Result {
        let Serving {
            slots,
            members,
            buckets,
            passes,
            loops,
        } = *self;
        match loops {
            None => write!(
                f,
                "slots {slots}, members {members}, buckets {buckets}, passes {passes}"
            ),
            Some(
                Loops {
                    count,
                    connections,
                    language: _,
                    forgetting: _,
                },
            ) => write!(
                f,
                "slots {slots}, members {members}, buckets {buckets}, passes {passes}, connections {connections}, loops {count}"
            ),
        }
    }
}

/// Why a service serves nobody.
#[derive(Debug, Drop)]
pub enum Lack {
    /// There is no memory for its passes and clients.
    Memory,
    /// The system refused what a loop needs.
    System(io::Error),
}

impl fmt::Display for Lack {
    fn fmt<W: fmt::Write>(&self, f: &mut fmt::Formatter<W>) -> fmt::Result {
        match self {
            Lack::Memory => f.write_str("out of memory"),
            Lack::System(error) => write!(f, "{error}"),
        }
    }
}

/// What a request asks for, without its key.
#[derive(Clone, Copy, Debug, PartialEq, Eq)]
pub enum Verb {
    Add,
    Remove,
    Has,
}

impl Verb {
    /// What this request asks for. A session never asks `quit`.
    pub fn of(request: &Request) -> Verb
        ensures { result ≡ verb_of request.now }
    {
        match request {
            Request::Add(_) => Verb::Add,
            Request::Remove(_) => Verb::Remove,
            Request::Has(_) | Request::Quit => Verb::Has,
        }
    }
}

/// Is told what an operator wants to know of a service, by any of its threads, and says when it is to end.
pub trait Observer: Drop {
    /// That somebody has asked for its end.
    ghost asked: { Type 0 };

    /// The service stands, and is about to take its first connection from this listener.
    fn serving(&self, serving: Serving, listener: &Listener);

    /// The service can't listen on its port.
    fn no_port(&self, error: io::Error);

    /// The service serves nobody, for this reason.
    fn unserved(&self, why: Lack);

    /// No thread can be made for a pass, or for a loop: the thread that makes them serves in its place, until it is done.
    fn threadless(&self);

    /// A connection was accepted.
    fn accepted(&self);

    /// A connection can't be accepted now. It waits.
    fn unaccepted(&self, error: io::Error);

    /// A connection that was accepted has ended.
    fn parted(&self);

    /// A client has been silent for a second, or all places are taken: connections may wait.
    fn crowded(&self);

    /// A command was replied to so. Where they are known, so many members were durable then.
    fn answered(&self, verb: Verb, reply: Reply, members: Option<usize>);

    /// A reply was given so long after its connection was heard.
    fn took(&self, time: Duration);

    /// What is known of the service now. A client has asked.
    fn figures(&self) -> Figures;

    /// The clearings of the service.
    fn clearings(&self) -> &Clearings;

    /// A client has asked for the end of the service, which by these figures may be had.
    fn shut_down(&self, figures: &Figures)
        requires { figures.now.stoppable ≡ true };

    /// A session has found that the device failed, or that no sync is left: nothing more is answered until the file is opened
    /// again. Told once.
    fn halted(&self);

    /// Whether the service is to end: then no further line or frame is begun, and those that were are answered.
    fn stops(&self) -> bool
        ensures { result ≡ true → asked };
}

/// An observer that has the lease of its service. Where that is lost it says that the service is to end.
pub trait Leased: Observer {
    /// What the lease holds on to.
    type Tether: Tether;

    /// The lease, by which the service's loops send.
    fn lease(&self) -> &Lease<Self::Tether>;
}
