//! A pass of a loop at its place, and the request that it answers.
ghost use Rattle.std.specs.Prelude.{◌≡◌, ◌≢◌, ◌+◌, IfSome, IsSomeAnd, None, Some, false, option_map, true, ◌↔◌, IsTrue};
ghost use Rattle.lz_slot.specs.declared.command.Command.{Command as Asks};
ghost use Rattle.lz_list.specs.Traces.{Begins};
ghost use Rattle.lz_board.specs.declared.pass.Pass.{Pass as Seen};
ghost use Rattle.lz_board.specs.Seats.{IsOf, part};
ghost use Rattle.lz_refinement.specs.Counting.{Counts};
ghost use Rattle.lz_set.specs.Names.{MayCall};
ghost use Rattle.lz_set.specs.Stages.{HasPlayed, StandsAt, StepsUnfailed, StepsWithout};
ghost use Rattle.lz_machine.specs.declared.kind.Kind.TheVariants as kind;
ghost use Rattle.lz_serve.specs.Askings.{IsAnsweredWith, IsCounting, IsSameQuestion, IsStopped, waits_for_slots};
ghost use Rattle.lz_serve.specs.Grants.{IsGrant};
ghost use Rattle.lz_serve.specs.Replies.{command_of, says_halted};

use crate::client::Question;
use crate::free_pass::FreePass;
use crate::given::Given;
use crate::replies::{asks_again, client_reply, says_halted};
use lz_disk::Disk;
use lz_proto::Reply;
use lz_set::{Blocked, HeldLock, Named, Pass, Set, StepGate, Underway};
use std::marker::{Model, PhantomData};
use std::snapshot::Snapshot;
use std::sync::Wait;
use std::thread;
use std::time::{Clock, Duration};

/// For how many milliseconds a pass waits before a call that is made again, but for the first of them.
const PAUSE_MS: u64 = 1;

/// A pass of a loop at its place: it rests, or answers a request for the client of a token. Then its owner is to play it on until it is
/// replied to, since others may wait for a node that it holds.
#[derive(Drop)]
pub struct Asking<N: Named, B: Given> {
    /// None where it rests.
    question: Option<Question>,
    token: usize,
    pass: Pass,
    /// Its last reply told that the service halted.
    halted: bool,
    /// None where it is yet to begin: the pass is outside, and holds up no slot.
    call: Option<Underway>,
    /// How many calls were answered that no slot is free, while slots waited.
    tries: usize,
    /// Where the call stands, once it was played on.
    stage: Option<Blocked>,
    of: PhantomData<N>,
    among: PhantomData<B>,
}

impl<N: Named, B: Given> Model for Asking<N, B> {
    ghost use Rattle.lz_serve.specs.Askings.{Asked, IsAsking};

    ghost Value = { Asked };

    ghost view = { λ a. record { question = a.question; token = a.token; pass = a.pass; halted = a.halted; call = a.call; tries = a.tries; stage = a.stage } };

    ghost invariant = { λ a. IsAsking N.board N.format B.parts (record { question = a.question; token = a.token; pass = a.pass; halted = a.halted; call = a.call; tries = a.tries; stage = a.stage }) };
}

/// The reply to a question that a call of a pass gave, of the set that N names. It is made where that call is answered, and nowhere
/// else, and can't be copied.
#[derive(Drop)]
pub struct Granted<N: Named> {
    question: Question,
    reply: Reply,
    after: Snapshot<Pass>,
    of: PhantomData<N>,
}

impl<N: Named> Model for Granted<N> {
    ghost use Rattle.lz_serve.specs.Grants.{Grant, IsGrant};

    ghost Value = { Grant };

    ghost view = { λ g. record { question = g.question; reply = g.reply; after = g.after.value } };

    ghost invariant = { λ g. IsGrant N.board N.format (record { question = g.question; reply = g.reply; after = g.after.value }) };
}

impl<N: Named> Granted<N> {
    /// The reply.
    pub fn reply(&self) -> Reply
        ensures reply { result ≡ self.now.reply }
        ensures granted { IsGrant N.board N.format self.now }
    {
        self.reply
    }

    /// The question.
    pub(crate) fn question(&self) -> &Question
        ensures { result.now ≡ self.now.question }
    {
        &self.question
    }
}

impl<N: Named, B: Given> Asking<N, B> {
    /// The place of a pass that is free.
    pub fn new(free: FreePass<N, B>) -> Asking<N, B>
        ensures rests { result.question ≡ None }
        ensures pass { (result.pass ≡ free.pass) × (result.halted ≡ free.halted) }
    {
        let (pass, halted) = free.into_parts();
        Asking {
            question: None,
            token: 0,
            pass,
            halted,
            call: None,
            tries: 0,
            stage: None,
            of: PhantomData,
            among: PhantomData,
        }
    }

    /// Its pass, which is free.
    pub fn into_free(self) -> FreePass<N, B>
        requires { self.question ≡ None }
        ensures { (result.pass ≡ self.pass) × (result.halted ≡ self.halted) }
    {
        let Asking {
            question: _,
            token: _,
            pass,
            halted,
            call: _,
            tries: _,
            stage: _,
            of: _,
            among: _,
        } = self;
        FreePass::new(pass, halted)
    }

    /// Its pass.
    pub fn pass(&self) -> &Pass
        ensures { result.now ≡ self.now.pass }
    {
        &self.pass
    }

    /// Whether its last reply told that the service halted.
    pub fn halted(&self) -> bool
        ensures { result ≡ self.now.halted }
    {
        self.halted
    }

    /// The token of its client, where it answers one.
    pub(crate) fn token(&self) -> usize
        ensures { result ≡ self.now.token }
    {
        self.token
    }

    /// The question that it answers.
    pub(crate) fn question(&self) -> Option<&Question>
        ensures some { IfSome result (λ question. self.now.question ≡ Some question.now) }
        ensures none { result ≡ None → self.now.question ≡ None }
    {
        self.question.as_ref()
    }

    /// Lets its pass and another, both of which are free, see what either has seen.
    pub(crate) fn meet<D: Disk, G: StepGate>(
        &mut self,
        set: &Set<D, G, N>,
        other: &mut FreePass<N, B>,
    )
        requires rests { self.old.question ≡ None }
        ensures same { self.new ≡ record self.old { pass = self.new.pass } }
        ensures grows { Begins (part self.old.pass).known (part self.new.pass).known }
        ensures other { Begins (part other.old.pass).known (part self.new.pass).known }
        ensures alike { (part other.new.pass).known ≡ (part self.new.pass).known }
    {
        other.meet(set, &mut self.pass);
    }

    /// Begins to answer a question of the client of this token, by the pass to which it was put, which has made no call since.
    pub fn begin<'a, D: Disk, G: StepGate, R: Wait>(
        &mut self,
        rt: &R,
        set: &'a Set<D, G, N>,
        kept: &mut HeldLock<'a, D, N>,
        token: usize,
        question: Question,
    )
        requires rests { self.old.question ≡ None }
        requires calm { self.old.halted ≡ false }
        requires before { question.before ≡ self.old.pass }
        ensures question { self.new.question ≡ Some question }
        ensures token { self.new.token ≡ token }
        ensures tries { self.new.tries ≡ 0 }
        ensures halted { self.new.halted ≡ false }
    {
        let call = set.begin(rt, kept, &mut self.pass, question.command());
        self.call = Some(call);
        self.question = Some(question);
        self.token = token;
        self.tries = 0;
        self.stage = None;
    }

    /// Plays the call on up to a stage, and no Sync that calls the device. It begins where it hasn't yet. None where it rests.
    pub fn go_on<'a, D: Disk, G: StepGate, R: Wait>(
        &mut self,
        rt: &R,
        set: &'a Set<D, G, N>,
        kept: &mut HeldLock<'a, D, N>,
    ) -> Option<Blocked>
        ensures stands { IfSome result (λ stage. IsSomeAnd self.new.call (λ call. StandsAt stage call)) }
        ensures stage { self.new.stage ≡ result }
        ensures none { result ≡ None → self.old.question ≡ None }
        ensures stopped { IfSome result (λ stage. stage ≢ Blocked.Answers → IsSomeAnd kept.new (λ l. IsStopped l.yard self.new)) }
        ensures steps { StepsUnfailed kind.Sync (part self.old.pass) (part self.new.pass) }
        ensures same { IsSameQuestion self.old self.new }
    {
        let Some(question) = &self.question else {
            return None;
        };
        begin_once(rt, set, kept, &mut self.pass, &mut self.call, question);
        let Some(call) = self.call.as_mut() else {
            unreachable!();
        };
        let stage = set.go_on(rt, kept, &mut self.pass, call);
        self.stage = Some(stage);
        self.stage
    }

    /// Whether it waits for slots: its next call is yet to begin, and isn't the second one, which nothing is to wait for.
    pub fn waits(&self) -> bool
        ensures { result ≡ waits_for_slots self.now }
    {
        self.call.is_none() && self.tries > 1
    }

    /// Whether the call stood before a Sync when it was played on last, which wasn't played since.
    pub(crate) fn is_before_sync(&self) -> bool
        ensures { IsTrue result ↔ (self.now.stage ≡ Some Blocked.Syncs) }
    {
        matches!(self.stage, Some(Blocked::Syncs))
    }

    /// Plays the Sync, if the call stands before one, and says whether it does.
    pub fn sync<'a, D: Disk, G: StepGate, R: Wait>(
        &mut self,
        rt: &R,
        set: &'a Set<D, G, N>,
        kept: &mut HeldLock<'a, D, N>,
    ) -> bool
        ensures played { result ≡ true → HasPlayed kind.Sync (part self.old.pass) (part self.new.pass) }
        ensures none { result ≡ false → self.new ≡ self.old }
        ensures stage { self.new.stage ≢ Some Blocked.Syncs }
        ensures same { IsSameQuestion self.old self.new }
    {
        let Some(Blocked::Syncs) = self.stage else {
            return false;
        };
        let Some(call) = self.call.as_mut() else {
            unreachable!();
        };
        set.sync(rt, kept, &mut self.pass, call);
        self.stage = None;
        true
    }

    /// Answers the call. Where no slot was free and slots wait for calls that end, or an earlier line of its connection isn't answered,
    /// as it wasn't when the question was put, it is answered to nobody, and one more is to begin; up to a bound, in a set of several passes.
    pub fn answer<'a, D: Disk, G: StepGate, R: Wait>(
        &mut self,
        rt: &R,
        set: &'a Set<D, G, N>,
        kept: &mut HeldLock<'a, D, N>,
        earlier: bool,
    ) -> Option<Granted<N>>
        requires { self.old.stage ≡ Some Blocked.Answers }
        ensures granted { IfSome result (λ granted. (Some granted.question ≡ self.old.question) × (granted.after ≡ self.new.pass)) }
        ensures token { self.new.token ≡ self.old.token }
        ensures rests { IfSome result (λ granted. self.new.question ≡ None) }
        ensures halted { IfSome result (λ granted. self.new.halted ≡ says_halted granted.reply) }
        ensures told { IsAnsweredWith N.board N.format earlier self.old (option_map (λ granted. granted.reply) result) self.new.pass }
        ensures again { result ≡ None → (self.new.question ≡ self.old.question) × (self.new.call ≡ None) × (self.new.tries ≡ self.old.tries + 1) × (self.new.halted ≡ self.old.halted) }
    {
        let Some(question) = self.question.take() else {
            unreachable!();
        };
        let Some(call) = self.call.take() else {
            unreachable!();
        };
        let earlier = earlier && question.earlier();
        let answer = set.answer(rt, kept, &mut self.pass, call);
        self.stage = None;
        if asks_again(set, self.tries, earlier, answer) {
            self.question = Some(question);
            self.tries += 1;
            return None;
        }
        let reply = client_reply(answer);
        self.halted = says_halted(reply);
        Some(Granted {
            question,
            reply,
            after: Snapshot::of(&self.pass),
            of: PhantomData,
        })
    }
}

/// Answers a question to its end. It may wait for other passes.
pub(crate) fn grant<D: Disk, G: StepGate, N: Named, R: Wait + Clock>(
    rt: &R,
    set: &Set<D, G, N>,
    pass: &mut Pass,
    question: Question,
) -> Granted<N>
    requires may_call { MayCall N.board pass.old }
    requires before { question.before ≡ pass.old }
    ensures may_call { MayCall N.board pass.new }
    ensures granted { (result.question ≡ question) × (result.after ≡ pass.new) }
{
    let mut answer = set.call(rt, pass, question.command());
    let mut tries = 0;
    'calls: while asks_again(set, tries, false, answer) {
        // While it looked for a slot the pass was inside, and may have held up all that wait. Its answer has shown it outside.
        if tries > 0 {
            thread::sleep(rt, Duration::from_millis(PAUSE_MS));
        }
        answer = set.call(rt, pass, question.command());
        tries += 1;
    }
    let reply = client_reply(answer);
    let after = Snapshot::of(&*pass);
    Granted {
        question,
        reply,
        after,
        of: PhantomData,
    }
}

// The call for what the question asks begins, where it hasn't yet.
fn begin_once<'a, D: Disk, G: StepGate, N: Named, R: Wait>(
    rt: &R,
    set: &'a Set<D, G, N>,
    kept: &mut HeldLock<'a, D, N>,
    pass: &mut Pass,
    call: &mut Option<Underway>,
    question: &Question,
)
    requires pass { IsOf N.board pass.old }
    requires rests { call.old ≡ None → MayCall N.board pass.old }
    ensures pass { IsOf N.board pass.new }
    ensures counts { (c : Asks) (middle : Seen) → command_of question.now.request ≡ Some c → IsCounting N.board N.format c middle call.old pass.old → IsSomeAnd call.new (λ k. Counts N.board c N.format (part middle) k (part pass.new)) }
    ensures steps { StepsWithout kind.Sync (part pass.old) (part pass.new) }
{
    if call.is_none() {
        *call = Some(set.begin(rt, kept, pass, question.command()));
    }
}
