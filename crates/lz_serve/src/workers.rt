//! Workers, each with a share of a set's passes, in threads.
ghost use Rattle.std.specs.Prelude.{◌≡◌, ◌≤◌, [], All, IfErr, IfOk, IfSome, vec_capacity, vec_len};
ghost use Rattle.lz_set.specs.Names.{MayCall};
ghost use Rattle.lz_serve.specs.Halts.{IsCalmAfter};
ghost use Rattle.lz_serve.specs.Services.{Serves};

use crate::desk::Desk;
use crate::free_pass::{FreePass, hand_back};
use crate::given::Given;
use crate::loops::Loop;
use crate::observer::{Lack, Leased, Observer};
use crate::pass_thread::Host;
use crate::server::{Served, none_served};
use crate::shares::{HandsBack, Running, add_all, join_all, set_free, take_share};
use crate::socket::Socket;
use lz_disk::Disk;
use lz_set::{Named, Pass, StepGate};
use std::alloc::{AllocError, Global};
use std::sync::Wait;
use std::thread;
use std::thread::{Promise, PromisedHandle, Scope, SpawnError, Threads};
use std::time::Clock;

/// What serves by a share of the passes, until it is done.
#[derive(Drop)]
pub(crate) enum Worker<
    'a,
    D: Disk,
    G: StepGate,
    N: Named,
    R: Wait + Clock + AllocGlobal,
    O: Leased,
> {
    /// One connection after the other.
    Host(Host<'a, D, G, N, R, O>),
    /// Many connections at once.
    Loop(Loop<'a, D, G, N, R, O>),
}

impl<'a, D: Disk, G: StepGate, N: Named, R: Wait + Clock + AllocGlobal, O: Leased> Worker<
    'a,
    D,
    G,
    N,
    R,
    O,
> {
    // Serves by these passes, and hands them back.
    fn serve<B: Given>(self, share: Vec<FreePass<N, B>>) -> Vec<FreePass<N, B>>
        ensures { vec_len result ≡ vec_len share }
    {
        match self {
            Worker::Host(host) => host.serve(share),
            Worker::Loop(it) => it.serve(share),
        }
    }

    // The same, a loop at this desk.
    fn serve_at<B: Given>(
        self,
        desk: Option<Desk<Socket<'a, R, O::Tether>, N, B>>,
        share: Vec<FreePass<N, B>>,
    ) -> Vec<FreePass<N, B>>
        requires { IfSome desk (λ d. (d.given ≡ 0) × (d.free ≡ 0) × (vec_len share ≤ d.most)) }
        ensures { vec_len result ≡ vec_len share }
    {
        match (self, desk) {
            (Worker::Loop(it), Some(desk)) => it.serve_at(desk, share),
            (worker, _) => worker.serve(share),
        }
    }
}

/// Serves by these workers, one of them in this thread, where a loop has a desk, and each other one in a thread of its own. Where no thread
/// can be made for one, it serves in this thread too, before the next is begun.
pub(crate) fn serve_by<'a, D, G, N, B, R, O>(
    rt: &R,
    own: Worker<'a, D, G, N, R, O>,
    desk: Option<Desk<Socket<'a, R, O::Tether>, N, B>>,
    others: Vec<Worker<'a, D, G, N, R, O>>,
    passes: Vec<Pass>,
    observer: &O,
) -> Served
where
    D: Disk + Send,
    G: StepGate + Send + Sync,
    N: Named + Send + Sync,
    B: Given + Send + Sync,
    R: Threads + Wait + Clock + AllocGlobal + Sync,
    O: Leased + Sync,
    O::Tether: Send + Sync,
    requires may_call { All (MayCall N.board) passes.items }
    requires calm { All (IsCalmAfter B.parts) passes.items }
    requires desk { IfSome desk (λ d. (d.given ≡ 0) × (d.free ≡ 0) × (vec_len passes ≤ d.most)) }
    ensures { Serves N.board B.parts passes result }
{
    let Ok(spare) = Spare::<N, B>::of(rt.alloc(), others.len(), passes.len()) else {
        return none_served(passes, observer, Lack::Memory);
    };
    let Spare {
        threads,
        free,
        back,
        done,
    } = spare;
    let free = set_free::<N, B>(passes, free);
    let served = serve_shares(rt, own, desk, others, threads, free, back, observer);
    hand_back(served, done)
}

// The same, each by its share of these free passes, with room for the threads and for all passes that come back.
fn serve_shares<'a, D, G, N, B, R, O>(
    rt: &R,
    own: Worker<'a, D, G, N, R, O>,
    desk: Option<Desk<Socket<'a, R, O::Tether>, N, B>>,
    others: Vec<Worker<'a, D, G, N, R, O>>,
    threads: Vec<Running<N, B>>,
    free: Vec<FreePass<N, B>>,
    back: Vec<FreePass<N, B>>,
    observer: &O,
) -> Vec<FreePass<N, B>>
where
    D: Disk + Send,
    G: StepGate + Send + Sync,
    N: Named + Send + Sync,
    B: Given + Send + Sync,
    R: Threads + Wait + Clock + AllocGlobal + Sync,
    O: Leased + Sync,
    O::Tether: Send + Sync,
    requires desk { IfSome desk (λ d. (d.given ≡ 0) × (d.free ≡ 0) × (vec_len free ≤ d.most)) }
    requires back { (vec_len back ≡ 0) × (vec_len free ≤ vec_capacity back) }
    requires threads { (threads.items ≡ []) × (vec_len others ≤ vec_capacity threads) }
    ensures { vec_len result ≡ vec_len free }
{
    thread::scope(
        thread::scope_env(),
        rt,
        move |scope| -> Vec<FreePass<N, B>>
            requires desk { IfSome desk (λ d. (d.given ≡ 0) × (d.free ≡ 0) × (vec_len free ≤ d.most)) }
            requires back { (vec_len back ≡ 0) × (vec_len free ≤ vec_capacity back) }
            requires threads { (threads.items ≡ []) × (vec_len others ≤ vec_capacity threads) }
            ensures { vec_len result ≡ vec_len free }
        {
            let given = free.len();
            let mut left = others.len().saturating_add(1);
            let mut threads = threads;
            let mut back = back;
            let mut free = free;
            let mine = take_share(rt.alloc(), &mut free, left);
            for worker in others {
                left = left.saturating_sub(1);
                let share = take_share(rt.alloc(), &mut free, left);
                let count = share.len();
                let serve = move || -> Vec<FreePass<N, B>>
                    ensures { vec_len result ≡ vec_len share }
                { worker.serve(share) };
                match begin(scope, HandsBack { count }, serve, observer) {
                    Ok(thread) => {
                        let Ok(()) = threads.push(thread) else {
                            unreachable!()
                        };
                    }
                    Err(served) => add_all(&mut back, served),
                }
            }
            add_all(&mut back, free);
            add_all(&mut back, own.serve_at(desk, mine));
            join_all(rt, threads, back)
        },
    )
}

// Does this in a thread of its own. Where none can be made, it is done here, and what comes of it is the error. The observer is told so
// before: it may last as long as the service.
fn begin<
    's,
    E,
    P: Promise<T> + Drop,
    F: FnOnce() -> T + Send + 's,
    T: Send + Drop + 's,
    O: Observer,
>(scope: &Scope<'s, E>, promise: P, f: F, observer: &O) -> Result<PromisedHandle<T, P>, T>
    requires runs { F.pre f }
    requires keeps { (r : T) → F.post f r → P.kept_by promise r }
    ensures ok { IfOk result (λ thread. thread.promise ≡ promise) }
    ensures err { IfErr result (λ r. P.kept_by promise r) }
{
    match scope.spawn_with(promise, f) {
        Ok(thread) => Ok(thread),
        Err(refused) => {
            let SpawnError { value: do_here } = refused;
            observer.threadless();
            Err(do_here())
        }
    }
}

// Room for so many threads, and for so many passes: free ones, those that come back, and those that are handed back at the end.
#[derive(Drop)]
struct Spare<N: Named, B: Given> {
    threads: Vec<Running<N, B>>,
    free: Vec<FreePass<N, B>>,
    back: Vec<FreePass<N, B>>,
    done: Vec<Pass>,
}

impl<N: Named, B: Given> Spare<N, B> {
    ghost use Rattle.std.specs.Prelude.{[], IfOk, vec_capacity};

    fn of(alloc: Global, threads: usize, passes: usize) -> Result<Spare<N, B>, AllocError>
        ensures threads { IfOk result (λ spare. (spare.threads.items ≡ []) × (vec_len spare.threads ≡ 0) × (threads ≤ vec_capacity spare.threads)) }
        ensures free { IfOk result (λ spare. (vec_len spare.free ≡ 0) × (passes ≤ vec_capacity spare.free)) }
        ensures back { IfOk result (λ spare. (vec_len spare.back ≡ 0) × (passes ≤ vec_capacity spare.back)) }
        ensures done { IfOk result (λ spare. (vec_len spare.done ≡ 0) × (passes ≤ vec_capacity spare.done)) }
    {
        Ok(Spare {
            threads: Vec::with_capacity(alloc, threads)?,
            free: Vec::with_capacity(alloc, passes)?,
            back: Vec::with_capacity(alloc, passes)?,
            done: Vec::with_capacity(alloc, passes)?,
        })
    }
}
