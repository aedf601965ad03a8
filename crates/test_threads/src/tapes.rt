//! A connection of which all is known: each text that it takes is one that its client is to be told, by replies that passes granted.
ghost use Rattle.std.specs.Prelude.{◌≡◌, []};
ghost use Rattle.lz_board.specs.Seats.{part};
ghost use Rattle.lz_disk.specs.Records.{device_of};
ghost use Rattle.lz_serve.specs.Grants.{Promises};
ghost use Rattle.lz_serve.specs.Halts.{IsCalmAfter};
ghost use Rattle.lz_serve.specs.Streams.{IsFresh};
ghost use Rattle.lz_set.specs.Blanks.{MayBeNamed};
ghost use Rattle.lz_set.specs.Names.{MayCall};

use lz_disk::MemoryDisk;
use lz_proto::{Reply, Request};
use lz_resp::{Cleared, Figures};
use lz_serve::{
    Clearings, Client, FreePass, Given, Lack, Language, Listener, Observer, Received, Serving,
    Sight, Stream, Taken, Verb, serve_client,
};
use lz_set::{Blank, Fault, Named, NoGate, Pass, Set};
use lz_slot::Key;
use std::alloc::Global;
use std::cell::Cell;
use std::io;
use std::marker::{Brand, Model, PhantomData};
use std::sync::Wait;
use std::test::Fail;
use std::time::{Clock, Duration};
use test_support::{last_pass, made};

/// How many bytes come at once, and how many are taken, at most: less than a line, and than a reply.
const PIECE: usize = 3;

const MOUTHFUL: usize = 2;

/// A connection in memory, of a client of the set that N names: the client's text, how much of it has come, and what was sent, which it
/// hands out at its end.
struct Tape<'a, N: Named> {
    text: &'a [u8],
    read: usize,
    ended: bool,
    sent: Vec<u8>,
    out: &'a Cell<Option<Vec<u8>>>,
    of: PhantomData<N>,
}

impl<'a, N: Named> Model for Tape<'a, N> {
    ghost use Rattle.std.specs.Prelude.{take};
    ghost use Rattle.lz_serve.specs.declared.language.Language.TheVariants.{Lines};
    ghost use Rattle.lz_serve.specs.Streams.{Traffic};
    ghost use Rattle.test_threads.specs.Tapes.{IsTape};

    ghost Value = { Traffic };

    ghost view = { λ t. record { spoken = Lines; received = take t.read t.text.now; ended = t.ended; taken = t.sent.items } };

    ghost invariant = { λ t. IsTape N.board N.format t.text.now t.read t.ended t.sent.items };
}

impl<'a, N: Named> Drop for Tape<'a, N> {
    fn drop(self) {
        let Tape {
            text: _,
            read: _,
            ended: _,
            sent,
            out,
            of: _,
        } = self;
        out.set(Some(sent));
    }
}

impl<'a, N: Named> Tape<'a, N> {
    ghost use Rattle.std.specs.Prelude.{false};

    fn new(alloc: Global, text: &'a [u8], out: &'a Cell<Option<Vec<u8>>>) -> Tape<'a, N>
        ensures { result ≡ record { spoken = Language.Lines; received = []; ended = false; taken = [] } }
    {
        Tape {
            text,
            read: 0,
            ended: false,
            sent: Vec::new(alloc),
            out,
            of: PhantomData,
        }
    }
}

impl<'a, N: Named> Stream for Tape<'a, N> {
    ghost use Rattle.std.specs.Prelude.{Some};
    ghost use Rattle.lz_serve.specs.Grants.{AreGranted};
    ghost use Rattle.lz_serve.specs.Listings.{IsListing};

    ghost traffic = { λ t. Some t };

    ghost promised = { AreGranted N.board N.format };

    ghost listed = { IsListing N.board };

    ghost asked = { ⊥ };

    fn language(&self) -> Language {
        // What its contract sees is known where a field is read.
        let _ended = self.ended;
        Language::Lines
    }

    fn receive(&mut self, buffer: &mut [u8]) -> Received {
        let rest = &self.text[self.read..];
        if rest.is_empty() {
            self.ended = true;
            return Received::Over;
        }
        let count = PIECE.min(rest.len()).min(buffer.len());
        if count == 0 {
            return Received::Later;
        }
        buffer[..count].copy_from_slice(&rest[..count]);
        self.read += count;
        Received::Count(count)
    }

    fn next_request(&mut self) -> Option<Request> {
        None
    }

    fn take(&mut self, text: &[u8]) -> Taken {
        let count = MOUTHFUL.min(text.len());
        if count == 0 {
            return Taken::Later;
        }
        match self.sent.extend_from_slice(&text[..count]) {
            Ok(()) => Taken::Count(count),
            Err(_) => Taken::Failed,
        }
    }

    fn clear(&mut self, _room: u8) -> Option<Cleared> {
        Some(Cleared::Busy)
    }

    fn sought(&self) -> Option<Key> {
        None
    }

    fn see(&mut self, _sight: Option<Sight>) -> bool {
        true
    }

    fn has_come(&self) -> bool {
        false
    }

    fn stalls(&self) -> bool {
        false
    }

    fn leave(&mut self) {}
}

/// Hears nothing, and never ends a service.
#[derive(Drop)]
struct Deaf {
    clearings: Clearings,
}

impl Observer for Deaf {
    ghost asked = { ⊥ };

    fn serving(&self, _serving: Serving, _listener: &Listener) {}

    fn no_port(&self, error: io::Error) {
        drop(error);
    }

    fn unserved(&self, why: Lack) {
        drop(why);
    }

    fn threadless(&self) {}

    fn accepted(&self) {}

    fn unaccepted(&self, error: io::Error) {
        drop(error);
    }

    fn parted(&self) {}

    fn crowded(&self) {}

    fn answered(&self, _verb: Verb, _reply: Reply, _members: Option<usize>) {}

    fn took(&self, _time: Duration) {}

    fn figures(&self) -> Figures {
        Figures::default()
    }

    fn clearings(&self) -> &Clearings {
        &self.clearings
    }

    fn shut_down(&self, _figures: &Figures) {}

    fn halted(&self) {}

    fn stops(&self) -> bool {
        false
    }
}

// Serves a client by this pass, which B names, and hands the pass back.
fn serve_tape<N: Named, B: Given, R: Wait + Clock>(
    rt: &R,
    alloc: Global,
    set: &Set<MemoryDisk, NoGate, N>,
    pass: Pass,
    text: &[u8],
    out: &Cell<Option<Vec<u8>>>,
) -> Pass
    requires may_call { MayCall N.board pass }
    requires calm { IsCalmAfter B.parts pass }
    ensures { MayCall N.board result }
{
    serve_stream::<Tape<N>, N, B, R>(rt, alloc, set, pass, Tape::<N>::new(alloc, text, out))
}

// The same of a client on any connection.
fn serve_stream<S: Stream, N: Named, B: Given, R: Wait + Clock>(
    rt: &R,
    alloc: Global,
    set: &Set<MemoryDisk, NoGate, N>,
    pass: Pass,
    stream: S,
) -> Pass
    requires may_call { MayCall N.board pass }
    requires calm { IsCalmAfter B.parts pass }
    requires fresh { IsFresh (S.traffic stream) }
    requires promised { Promises N.board N.format S.promised S.listed }
    ensures { MayCall N.board result }
{
    let mut client = Client::new(alloc, 1, stream);
    let mut free = FreePass::<N, B>::new(pass, false);
    let deaf = Deaf {
        clearings: Clearings::new(),
    };
    serve_client(rt, set, &mut client, &mut free, &deaf);
    let (pass, _) = free.into_parts();
    pass
}

type Told = (Vec<u8>, Result<bool, Fault>);

// What a client of a set that was opened is told, and what its pass then answers to the addition of 9.
fn tell_by<N: Named, R: Wait + Clock>(
    rt: &R,
    alloc: Global,
    blank: Blank<MemoryDisk, NoGate>,
    text: &[u8],
) -> Option<Told>
    requires { MayBeNamed device_of N.board N.first N.format blank }
{
    let (set, passes) = blank.start::<N>();
    let mut passes = passes;
    let pass = last_pass::<N>(&mut passes)?;
    let out = Cell::new(None);
    let mut pass = serve_tape::<N, Brand, R>(rt, alloc, &set, pass, text, &out);
    let added = set.add(rt, &mut pass, Key::new(9)?);
    Some((out.take()?, added))
}

// The same on a new set of four slots.
fn tell<R: Wait + Clock>(rt: &R, alloc: Global, text: &[u8]) -> Option<Told> {
    match Set::open(alloc, made(alloc, 4)?, NoGate, 1, 1) {
        Ok(blank) => tell_by::<Brand, R>(rt, alloc, blank, text),
        Err(_) => None,
    }
}

// Texts, and what their clients are told. After `quit` nothing is carried out, and the text may end within a line.
const TALKS: [(&[u8], &[u8]); 2] = [
    (
        b"add 5\nadd 5\nhas 5\nnonsense\nremove 5\nhas 5\nquit\nadd 9\n",
        b"yes\nno\nyes\nbad 2\nyes\nno\n",
    ),
    (b"add 5\nhas 5", b"yes\nbad 5\n"),
];

#[test]
fn a_client_is_sent_the_replies_to_its_text(rt: HostRuntime) -> Result<(), Fail> {
    for (text, replies) in TALKS {
        let Some((sent, added)) = tell(&rt, rt.alloc(), text) else {
            panic!(rt; "no session")
        };
        assert_eq!(rt; sent.as_slice(), replies);
        assert_eq!(rt; added, Ok(true));
    }
    Ok(())
}
