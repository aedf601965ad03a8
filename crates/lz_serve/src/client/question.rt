//! The questions that lines put. Only this file makes them.
ghost use Rattle.std.specs.Prelude.{◌≡◌, ◌≢◌, ◌↔◌, ◌+◌, ◌<◌, ◌++◌, [], ◌∷◌, IfSome, IsTrue, None, Some, false, true};
ghost use Rattle.lz_list.specs.Traces.{Begins};
ghost use Rattle.lz_board.specs.Seats.{part};
ghost use Rattle.lz_serve.specs.Clients.{ComesAfter, HasLine, IsOwn, KeepsHeard, KeepsLines, KeepsOwn};
ghost use Rattle.lz_serve.specs.Grants.{Posed, key_asked};
ghost use Rattle.lz_serve.specs.Lines.{IsFree, awaited};
ghost use Rattle.lz_serve.specs.Replies.{command_of};

use crate::client::Client;
use crate::stream::Stream;
use lz_proto::Request;
use lz_set::Pass;
use lz_slot::Command;
use std::marker::Model;
use std::snapshot::Snapshot;

/// A request with the number of its connection and that of its line there. Contracts see the pass that is to answer it too, as it was
/// when the question was put. It can't be copied, and a reply to it uses it up.
#[derive(Drop)]
pub struct Question {
    connection: u64,
    line: u64,
    request: Request,
    before: Snapshot<Pass>,
    /// An earlier line of its connection wasn't answered when it was put.
    earlier: bool,
}

impl Model for Question {
    ghost use Rattle.std.specs.Prelude.{◌≡◌, ◌≢◌, ◌<◌, true};
    ghost use Rattle.lz_proto.specs.declared.request.Request.TheVariants.{Quit};
    ghost use Rattle.lz_serve.specs.Grants.{Posed};

    ghost Value = { Posed };

    ghost view = { λ q. record { connection = q.connection; line = q.line; request = q.request; before = q.before.value; earlier = q.earlier } };

    ghost invariant = { λ q. (q.request ≢ Quit) × (q.earlier ≡ true → 1 < q.line) };
}

impl Question {
    // The line of this number on a connection is put to a pass. Nobody but the client of that connection makes one, and one for each line.
    fn new(connection: u64, line: u64, request: Request, pass: &Pass, earlier: bool) -> Question
        requires asks { request ≢ Request.Quit }
        requires later { earlier ≡ true → 1 < line }
        ensures { result ≡ record { connection = connection; line = line; request = request; before = pass.now; earlier = earlier } }
    {
        Question {
            connection,
            line,
            request,
            before: Snapshot::of(pass),
            earlier,
        }
    }

    /// A request is put to a pass that is of no connection.
    pub(crate) fn of_none(request: Request, pass: &Pass) -> Question
        requires { request ≢ Request.Quit }
        ensures { result ≡ record { connection = 0; line = 0; request = request; before = pass.now; earlier = false } }
    {
        Question::new(0, 0, request, pass, false)
    }

    /// The number of its connection; 0 where it is of none.
    pub(crate) fn connection(&self) -> u64
        ensures { result ≡ self.now.connection }
    {
        self.connection
    }

    /// The number of its line on that connection.
    pub(crate) fn line(&self) -> u64
        ensures { result ≡ self.now.line }
    {
        self.line
    }

    /// What is asked.
    pub fn request(&self) -> Request
        ensures request { result ≡ self.now.request }
        ensures asks { result ≢ Request.Quit }
    {
        self.request
    }

    /// Whether an earlier line of its connection wasn't answered when it was put.
    pub(crate) fn earlier(&self) -> bool
        ensures { result ≡ self.now.earlier }
    {
        self.earlier
    }

    /// The command that it asks for.
    pub(crate) fn command(&self) -> Command
        ensures { command_of self.now.request ≡ Some result }
    {
        match self.request {
            Request::Add(key) => Command::Add(key),
            Request::Remove(key) => Command::Remove(key),
            Request::Has(key) => Command::Has(key),
            Request::Quit => unreachable!(),
        }
    }
}

impl<S: Stream> Client<S> {
    /// The next line, if one has come, as a question to this pass. It is under way then, beside those before it; one waits until those
    /// that asked for the same key were answered. The pass has seen what those had that answered the client.
    pub fn ask(&mut self, pass: &Pass) -> Option<Question>
        requires { Begins self.old.seen (part pass.now).known }
        ensures asked { IfSome result (λ question. self.new.under ≡ self.old.under ++ awaited question.request ∷ []) }
        ensures free { IfSome result (λ question. IsFree self.old.under (key_asked question.request)) }
        ensures before { IfSome result (λ question. question.before ≡ pass.now) }
        ensures earlier { IfSome result (λ question. IsTrue question.earlier ↔ (self.old.under ≢ [])) }
        ensures number { IfSome result (λ question. (question.connection ≡ self.new.connection) × (question.line ≡ self.new.lines)) }
        ensures lines { IfSome result (λ question. self.new.lines ≡ self.old.lines + 1) }
        ensures connection { self.new.connection ≡ self.old.connection }
        ensures own { IfSome result (λ question. IsOwn self.new question) }
        ensures later { IfSome result (ComesAfter (Some self.old)) }
        ensures kept { KeepsOwn (Some self.old) (Some self.new) }
        ensures heard { KeepsHeard (Some self.old) (Some self.new) }
        ensures seen { self.new.seen ≡ self.old.seen }
        ensures lines_kept { result ≡ None → KeepsLines self.old self.new }
        ensures none { result ≡ None → HasLine self.new → ⊥ }
    {
        if self.lost {
            return None;
        }
        let Ok(()) = self.puts.reserve(1) else {
            self.lost = true;
            return None;
        };
        let earlier = self.talk.told() < self.talk.lines();
        match self.talk.next() {
            Ok(Some(request)) => {
                self.held = false;
                let line = self.talk.lines();
                self.puts.push_back_reserved(Snapshot::of(pass));
                Some(Question::new(self.connection, line, request, pass, earlier))
            }
            Ok(None) => {
                self.held = self.talk.waits();
                None
            }
            Err(_) => {
                self.lost = true;
                None
            }
        }
    }
}
