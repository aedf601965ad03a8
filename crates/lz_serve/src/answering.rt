//! What a pass of a loop answers next, and how its reply is told.
ghost use Rattle.std.specs.Prelude.{◌≡◌, ◌≢◌, ◌⊎◌, ◌↔◌, ◌+◌, ◌≤◌, IfSome, IsSomeAnd, IsTrue, None, Some, false, option_map, true};
ghost use Rattle.lz_list.specs.Traces.{Begins};
ghost use Rattle.lz_board.specs.Seats.{part};
ghost use Rattle.lz_serve.specs.Askings.{AnswersNoOther, HasAnswered, IsStopped, StillAwaits, WaitsForSlots};
ghost use Rattle.lz_serve.specs.Clients.{CountsOne, HasNoneAt, HaveSeenIn, IsAwaited, IsNext, Keeps, KeepsAwaited};
ghost use Rattle.lz_serve.specs.Desks.{GoesAnew, IsCalled, IsReplied};
ghost use Rattle.lz_serve.specs.Grants.{Posed, Promises};

use crate::asking::Asking;
use crate::crowd::Crowd;
use crate::free_pass::FreePass;
use crate::given::Given;
use crate::observer::{Observer, Verb};
use crate::stream::Stream;
use lz_disk::Disk;
use lz_set::{Blocked, HeldLock, Named, Set, StepGate};
use std::sync::Wait;
use std::time::Clock;

/// What comes after an answer.
#[derive(Clone, Copy, PartialEq, Eq)]
pub(crate) enum Next {
    /// A call that is to be played on at once.
    GoesOn,
    /// A call that waits: for a sync, for a node that another has taken, or for slots.
    Waits,
    /// Nothing: the pass rests.
    Rests,
}

/// Plays a call on. One that is answered is told, and its pass begins the line whose turn it is, or one more call where no slot was free.
/// One that waits for slots is made again only where it may be (`tries`). What the pass has seen at its answer the pass that meets the
/// others has then, and the other way round.
pub(crate) fn play_call<'a, S, D, G, N, B, R, O>(
    rt: &R,
    set: &'a Set<D, G, N>,
    kept: &mut HeldLock<'a, D, N>,
    crowd: &mut Crowd<S>,
    meeting: &mut Option<FreePass<N, B>>,
    asking: &mut Asking<N, B>,
    observer: &O,
    ends: bool,
    tries: bool,
) -> Next
where
    S: Stream,
    D: Disk,
    G: StepGate,
    N: Named,
    B: Given,
    R: Wait,
    O: Observer,
    requires promised { Promises N.board N.format S.promised S.listed }
    requires called { IsCalled crowd.old (option_map (λ free. (part free.pass).known) meeting.old) asking.old }
    requires met { IfSome meeting.old (λ free. HaveSeenIn crowd.old (part free.pass).known) }
    ensures kept { KeepsAwaited crowd.old crowd.new }
    ensures met { IfSome meeting.new (λ free. HaveSeenIn crowd.new (part free.pass).known) }
    ensures none { (meeting.new ≡ None) ↔ (meeting.old ≡ None) }
    ensures waits { result ≡ Next.Waits → WaitsForSlots N.board N.format crowd.old tries asking.old asking.new ⊎ IsSomeAnd kept.new (λ l. IsStopped l.yard asking.new) }
    ensures anew { result ≡ Next.GoesOn → GoesAnew N.board N.format crowd.old crowd.new asking.old asking.new }
    ensures goes { result ≢ Next.Rests → IsCalled crowd.new (option_map (λ free. (part free.pass).known) meeting.new) asking.new }
    ensures replied { result ≡ Next.Rests → HasAnswered N.board N.format crowd.old asking.old × IsReplied crowd.new asking.old }
    ensures rests { result ≡ Next.Rests → (asking.new.question ≡ None) × HaveSeenIn crowd.new (part asking.new.pass).known }
    ensures ends { ends ≡ true → AnswersNoOther asking.old asking.new }
    ensures counted { crowd.new.begun ≤ crowd.old.begun + 1 }
    ensures ended { ends ≡ true → crowd.new.begun ≡ crowd.old.begun }
    ensures uncounted { result ≢ Next.GoesOn → crowd.new.begun ≡ crowd.old.begun }
{
    if asking.waits() && !tries {
        return Next::Waits;
    }
    match asking.go_on(rt, set, kept) {
        Some(Blocked::Answers) => {}
        _ => return Next::Waits,
    }
    let token = asking.token();
    let earlier = still_awaits(crowd, asking);
    let Some(granted) = asking.answer(rt, set, kept, earlier) else {
        return if asking.waits() {
            Next::Waits
        } else {
            Next::GoesOn
        };
    };
    let verb = Verb::of(&granted.question().request());
    observer.answered(verb, granted.reply(), kept.opened());
    meet(set, asking, meeting);
    crowd.reply(token, granted, asking.pass(), observer);
    if begin_next(rt, set, kept, crowd, asking, ends) {
        Next::GoesOn
    } else {
        Next::Rests
    }
}

// Whether a line of its client before that of its question still awaits its reply, as one did when the question was put.
fn still_awaits<S: Stream, N: Named, B: Given>(crowd: &Crowd<S>, asking: &Asking<N, B>) -> bool
    ensures { IsTrue result ↔ StillAwaits crowd.now asking.now }
{
    let token = asking.token();
    match asking.question() {
        Some(question) => question.earlier() && crowd.has_earlier(token, question.line()),
        None => false,
    }
}

/// Lets the pass, which is free, see what the pass has seen that meets the others, if there is one, and the other way round.
pub(crate) fn meet<D: Disk, G: StepGate, N: Named, B: Given>(
    set: &Set<D, G, N>,
    asking: &mut Asking<N, B>,
    meeting: &mut Option<FreePass<N, B>>,
)
    requires { asking.old.question ≡ None }
    ensures same { asking.new ≡ record asking.old { pass = asking.new.pass } }
    ensures grows { Begins (part asking.old.pass).known (part asking.new.pass).known }
    ensures others { IfSome meeting.old (λ free. Begins (part free.pass).known (part asking.new.pass).known) }
    ensures alike { IfSome meeting.new (λ free. (part free.pass).known ≡ (part asking.new.pass).known) }
    ensures none { (meeting.new ≡ None) ↔ (meeting.old ≡ None) }
{
    if let Some(other) = meeting {
        asking.meet(set, other);
    }
}

/// Begins to answer the line whose turn it is by this pass, if there is one and the service goes on, and says whether it did. Where it ends no
/// client has its turn. The pass has seen what those had that answered any of the clients.
pub(crate) fn begin_next<'a, S, D, G, N, B, R>(
    rt: &R,
    set: &'a Set<D, G, N>,
    kept: &mut HeldLock<'a, D, N>,
    crowd: &mut Crowd<S>,
    asking: &mut Asking<N, B>,
    ends: bool,
) -> bool
where
    S: Stream,
    D: Disk,
    G: StepGate,
    N: Named,
    B: Given,
    R: Wait,
    requires rests { asking.old.question ≡ None }
    requires seen { HaveSeenIn crowd.old (part asking.old.pass).known }
    ensures kept { Keeps crowd.old crowd.new }
    ensures later { result ≡ true → IfSome asking.new.question (IsNext crowd.old asking.new.token) }
    ensures begun { result ≡ true → (question : Posed) × (asking.new.question ≡ Some question) × (question.before ≡ asking.old.pass) × IsAwaited crowd.new asking.new.token question }
    ensures rests { result ≡ false → asking.new ≡ asking.old }
    ensures ends { ends ≡ true → (result ≡ false) × (crowd.new ≡ crowd.old) × (kept.new ≡ kept.old) }
    ensures counted { result ≡ true → CountsOne crowd.old.begun crowd.new.begun }
    ensures uncounted { result ≡ false → crowd.new.begun ≡ crowd.old.begun }
{
    if ends || asking.halted() {
        return false;
    }
    let Some((token, question)) = crowd.take_turn(asking.pass()) else {
        return false;
    };
    asking.begin(rt, set, kept, token, question);
    true
}

/// Answers the requests of the client of this token by this pass, until none waits, or it was told that the service halted, as it is once each
/// member of its first frame has a reply. The pass has seen what those had that answered any of the clients.
pub(crate) fn answer_one<S, D, G, N, B, R, O>(
    rt: &R,
    set: &Set<D, G, N>,
    crowd: &mut Crowd<S>,
    token: usize,
    free: &mut FreePass<N, B>,
    observer: &O,
    buffer: &mut [u8],
)
where
    S: Stream,
    D: Disk,
    G: StepGate,
    N: Named,
    B: Given,
    R: Wait + Clock,
    O: Observer,
    requires promised { Promises N.board N.format S.promised S.listed }
    requires seen { HaveSeenIn crowd.old (part free.old.pass).known }
    ensures kept { KeepsAwaited crowd.old crowd.new }
    ensures seen { HaveSeenIn crowd.new (part free.new.pass).known }
    ensures none { HasNoneAt crowd.new token }
{
    crowd.read_last(token, observer, buffer);
    'requests: for _ in rt.forever() {
        let Some(question) = crowd.take_last(token, free.pass()) else {
            break;
        };
        let verb = Verb::of(&question.request());
        let granted = free.answer(rt, set, question);
        observer.answered(verb, granted.reply(), None);
        crowd.reply(token, granted, free.pass(), observer);
    }
}
