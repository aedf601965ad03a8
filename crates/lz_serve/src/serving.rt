//! The loop.
ghost use Rattle.std.specs.Prelude.{◌≡◌, ◌≤◌, ◌+◌, [], IfOk, All, vec_capacity, vec_len};
ghost use Rattle.lz_set.specs.Names.{MayCall};
ghost use Rattle.lz_serve.specs.Clients.{Keeps};
ghost use Rattle.lz_serve.specs.Grants.{Promises};
ghost use Rattle.lz_serve.specs.Halts.{IsCalmAfter};
ghost use Rattle.lz_serve.specs.Services.{Serves, parts_of};

mod stopping;

use crate::crowd::Crowd;
use crate::desk::Desk;
use crate::free_pass::{FreePass, hand_back};
use crate::given::Given;
use crate::limited::{Limit, Limited};
use crate::observer::{Lack, Observer};
use crate::poller::{Poller, Ready};
use crate::server::{Bounds, Served, none_served};
use crate::shares::set_free;
use crate::stream::Stream;
use lz_disk::Disk;
use lz_proto::MOST_PIECE;
use lz_set::{Named, Pass, Set, StepGate};
use std::alloc::{AllocError, Global};
use std::marker::Brand;
use std::sync::Wait;
use std::sync::atomic::{AtomicBool, Ordering};
use std::time::{Clock, Duration};
use stopping::refuse_rest;

/// For how many milliseconds, at its end, a loop goes on sending replies that are slowly taken, and how long each turn is then at most.
const FAREWELL_MS: u64 = 1_000;

const FAREWELL_TURN_MS: u64 = 100;

/// Serves connections, so many at once, by these passes in one thread, until a client was told that the service halted, here or by another loop, which
/// sets `told`, the observer says that it is to end, or so many connections were served. Where it is to end what wasn't begun is refused. Then the calls
/// under way are played to their answers, and what is unsent is sent. Where the service halted each request that waits is answered too. The loop whose
/// client was told so first tells the observer. Where no memory is left for its clients it serves none. It hands the poller back, from which no more
/// connections have come than so.
#[tactic(auto, using(crate::proofs::JoinedPasses::calm_after))]
pub fn serve_loop<D, G, N, R, O, P>(
    rt: &R,
    poller: P,
    set: &Set<D, G, N>,
    passes: Vec<Pass>,
    connections: usize,
    bounds: Bounds,
    observer: &O,
    told: &AtomicBool,
) -> (Served, P)
where
    D: Disk,
    G: StepGate,
    N: Named,
    R: Wait + Clock + AllocGlobal,
    O: Observer,
    P: Poller,
    requires may_call { All (MayCall N.board) passes.items }
    requires promised { Promises N.board N.format P.Stream.promised P.Stream.listed }
    requires asked { O.asked → P.Stream.asked }
    ensures served { Serves N.board (parts_of passes.items) passes result.0 }
    ensures sessions { 1 ≤ bounds.sessions → P.came result.1 ≤ P.came poller + bounds.sessions }
{
    serve_among::<D, G, N, Brand, R, O, P>(
        rt,
        poller,
        set,
        passes,
        connections,
        bounds,
        observer,
        told,
    )
}

// The same. B names the passes.
fn serve_among<D, G, N, B, R, O, P>(
    rt: &R,
    poller: P,
    set: &Set<D, G, N>,
    passes: Vec<Pass>,
    connections: usize,
    bounds: Bounds,
    observer: &O,
    told: &AtomicBool,
) -> (Served, P)
where
    D: Disk,
    G: StepGate,
    N: Named,
    B: Given,
    R: Wait + Clock + AllocGlobal,
    O: Observer,
    P: Poller,
    requires may_call { All (MayCall N.board) passes.items }
    requires calm { All (IsCalmAfter B.parts) passes.items }
    requires promised { Promises N.board N.format P.Stream.promised P.Stream.listed }
    requires asked { O.asked → P.Stream.asked }
    ensures served { Serves N.board B.parts passes result.0 }
    ensures sessions { 1 ≤ bounds.sessions → P.came result.1 ≤ P.came poller + bounds.sessions }
{
    let Ok((desk, free, done)) = make_desk::<P::Stream, N, B>(rt.alloc(), passes.len(), connections)
    else {
        return (none_served(passes, observer, Lack::Memory), poller);
    };
    let desk = take_in_all(desk, set_free(passes, free));
    let (free, poller) = serve_in::<D, G, N, B, Brand, R, O, P>(
        rt, poller, set, desk, bounds, observer, told,
    );
    (hand_back(free, done), poller)
}

type Rooms<S, N, B> = (Desk<S, N, B>, Vec<FreePass<N, B>>, Vec<Pass>);

// A desk for so many passes and clients, and for the passes that are handed back.
fn make_desk<S: Stream, N: Named, B: Given>(
    alloc: Global,
    passes: usize,
    clients: usize,
) -> Result<Rooms<S, N, B>, AllocError>
    ensures desk { IfOk result (λ made. (made.0.given ≡ 0) × (made.0.free ≡ 0) × (made.0.most ≡ passes)) }
    ensures free { IfOk result (λ made. (vec_len made.1 ≡ 0) × (passes ≤ vec_capacity made.1)) }
    ensures done { IfOk result (λ made. (vec_len made.2 ≡ 0) × (passes ≤ vec_capacity made.2)) }
{
    let desk = Desk::new(alloc, passes, clients)?;
    let free = Vec::with_capacity(alloc, passes)?;
    let done = Vec::with_capacity(alloc, passes)?;
    Ok((desk, free, done))
}

/// Takes all these passes in.
pub(crate) fn take_in_all<S: Stream, N: Named, B: Given>(
    desk: Desk<S, N, B>,
    passes: Vec<FreePass<N, B>>,
) -> Desk<S, N, B>
    requires empty { (desk.given ≡ 0) × (desk.free ≡ 0) }
    requires desk { vec_len passes ≤ desk.most }
    ensures { (result.given ≡ vec_len passes) × (result.free ≡ vec_len passes) }
{
    let mut desk = desk;
    for free in passes {
        desk.take_in(free);
    }
    desk
}

/// Serves by the passes of this desk, and hands them back, with the poller. L names how many connections may come.
pub(crate) fn serve_in<D, G, N, B, L, R, O, P>(
    rt: &R,
    poller: P,
    set: &Set<D, G, N>,
    desk: Desk<P::Stream, N, B>,
    bounds: Bounds,
    observer: &O,
    told: &AtomicBool,
) -> (Vec<FreePass<N, B>>, P)
where
    D: Disk,
    G: StepGate,
    N: Named,
    B: Given,
    L: Limit,
    R: Wait + Clock + AllocGlobal,
    O: Observer,
    P: Poller,
    requires promised { Promises N.board N.format P.Stream.promised P.Stream.listed }
    requires asked { O.asked → P.Stream.asked }
    requires limit { (L.before ≡ P.came poller) × (L.sessions ≡ bounds.sessions) }
    ensures count { vec_len result.0 ≡ desk.given }
    ensures sessions { 1 ≤ bounds.sessions → P.came result.1 ≤ P.came poller + bounds.sessions }
{
    let mut desk = desk;
    let mut poller = Limited::<P, L>::new(poller, bounds.sessions);
    run(rt, &mut poller, set, &mut desk, bounds, observer, told);
    (desk.into_free(), poller.into_poller())
}

// Turn after turn, until the loop ends. Then all calls under way are answered.
fn run<D, G, N, B, L, R, O, P>(
    rt: &R,
    poller: &mut Limited<P, L>,
    set: &Set<D, G, N>,
    desk: &mut Desk<P::Stream, N, B>,
    bounds: Bounds,
    observer: &O,
    told: &AtomicBool,
)
where
    D: Disk,
    G: StepGate,
    N: Named,
    B: Given,
    L: Limit,
    R: Wait + Clock + AllocGlobal,
    O: Observer,
    P: Poller,
    requires promised { Promises N.board N.format P.Stream.promised P.Stream.listed }
    requires asked { O.asked → P.Stream.asked }
    ensures given { desk.new.given ≡ desk.old.given }
    ensures rests { desk.new.free ≡ desk.new.given }
{
    let mut buffer = [0; MOST_PIECE];
    let mut ready = Vec::new(rt.alloc());
    'turns: for _ in rt.forever() {
        if desk.is_done(bounds.sessions) || is_ended(observer, told) {
            break;
        }
        admit(rt, poller, &mut desk.crowd, observer, &mut buffer);
        let patience = desk.patience();
        listen(
            rt,
            poller,
            &mut desk.crowd,
            patience,
            bounds.idle,
            &mut ready,
            observer,
            &mut buffer,
        );
        if is_ended(observer, told) {
            break;
        }
        desk.play_turn(rt, set, observer, &mut buffer);
    }
    refuse_rest(
        rt,
        poller,
        set,
        desk,
        &mut ready,
        observer,
        told,
        &mut buffer,
    );
    answer_rest(rt, set, desk, observer, told, &mut buffer);
    let crowd = &mut desk.crowd;
    take_leave(rt, poller, crowd, &mut ready, observer, &mut buffer);
    desk.tell_parted(observer);
}

// Answers all calls under way. Where the service halted each request that waits is answered too, and the first loop that knows tells the observer.
fn answer_rest<D, G, N, B, S, R, O>(
    rt: &R,
    set: &Set<D, G, N>,
    desk: &mut Desk<S, N, B>,
    observer: &O,
    told: &AtomicBool,
    buffer: &mut [u8],
)
where
    D: Disk,
    G: StepGate,
    N: Named,
    B: Given,
    S: Stream,
    R: Wait + Clock + AllocGlobal,
    O: Observer,
    requires { Promises N.board N.format S.promised S.listed }
    ensures given { desk.new.given ≡ desk.old.given }
    ensures rests { desk.new.free ≡ desk.new.given }
{
    desk.finish(rt, set, observer, buffer);
    if desk.halted() && !told.swap(true, Ordering::SeqCst) {
        observer.halted();
    }
    if told.load(Ordering::SeqCst) {
        desk.list_pages(rt.alloc(), set, observer, buffer);
        desk.answer_last(rt, set, observer, buffer);
    }
}

// Whether a client of some loop was told that the service halted, or the service is to end.
fn is_ended<O: Observer>(observer: &O, told: &AtomicBool) -> bool {
    told.load(Ordering::SeqCst) || observer.stops()
}

// Admits those that have come, as long as more may come.
fn admit<L, R, O, P>(
    rt: &R,
    poller: &mut Limited<P, L>,
    crowd: &mut Crowd<P::Stream>,
    observer: &O,
    buffer: &mut [u8],
)
where
    L: Limit,
    R: AllocGlobal,
    O: Observer,
    P: Poller,
    requires { P.Stream.promised [] }
    ensures { Keeps crowd.old crowd.new }
{
    for _ in 0..crowd.most() {
        if poller.is_over() {
            return;
        }
        let Some(token) = crowd.vacancy() else {
            return observer.crowded();
        };
        match poller.accept(token) {
            Ok(Some(stream)) => {
                observer.accepted();
                crowd.admit(rt.alloc(), stream, observer, buffer);
            }
            Ok(None) => {
                if poller.is_full() {
                    observer.crowded();
                }
                return;
            }
            Err(error) => return observer.unaccepted(error),
        }
    }
}

// Hears which connections can be read or written, for which it waits for so long, and then closes those that were idle.
fn listen<R, O, P>(
    rt: &R,
    poller: &mut P,
    crowd: &mut Crowd<P::Stream>,
    patience: Duration,
    idle: Option<Duration>,
    ready: &mut Vec<Ready>,
    observer: &O,
    buffer: &mut [u8],
)
where
    R: Clock,
    O: Observer,
    P: Poller,
    ensures { Keeps crowd.old crowd.new }
{
    ready.clear();
    poller.poll(patience, ready);
    if let Ok(now) = rt.monotonic() {
        crowd.note_time(now);
    }
    for one in ready.iter() {
        crowd.hear(*one, observer, buffer);
    }
    crowd.close_idle(idle);
}

// Sends what is unsent and ends each session. Clients that take no more of their replies, or don't leave, are waited for only a while.
fn take_leave<R, O, P>(
    rt: &R,
    poller: &mut P,
    crowd: &mut Crowd<P::Stream>,
    ready: &mut Vec<Ready>,
    observer: &O,
    buffer: &mut [u8],
)
where
    R: Clock,
    O: Observer,
    P: Poller,
    ensures { Keeps crowd.old crowd.new }
{
    let began = note_time(rt, crowd);
    crowd.part_all(observer, buffer);
    if let Some(began) = began {
        'turns: for _ in 0..u64::MAX {
            if crowd.is_empty() || !is_within(rt, began) {
                break;
            }
            let patience = farewell_turn(crowd);
            listen(rt, poller, crowd, patience, None, ready, observer, buffer);
            crowd.tend_queue(observer, buffer);
            crowd.tend_back(observer, buffer);
        }
    }
    crowd.close_all();
}

// Notes the time: a client whose session ends now is waited for from now on, however long the turn was before.
fn note_time<R: Clock, S: Stream>(rt: &R, crowd: &mut Crowd<S>) -> Option<Duration>
    ensures { crowd.new ≡ crowd.old }
{
    let now = rt.monotonic().ok()?;
    crowd.note_time(now);
    Some(now)
}

// For how long it is waited for something to be heard: not at all where a client sends on.
fn farewell_turn<S: Stream>(crowd: &Crowd<S>) -> Duration {
    if crowd.is_quiet() {
        Duration::from_millis(FAREWELL_TURN_MS)
    } else {
        Duration::ZERO
    }
}

// Whether it is no later than a farewell's time after this.
fn is_within<R: Clock>(rt: &R, began: Duration) -> bool {
    let now = rt.monotonic().unwrap_or(Duration::MAX);
    now.saturating_sub(began) < Duration::from_millis(FAREWELL_MS)
}
