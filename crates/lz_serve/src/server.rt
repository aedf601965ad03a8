//! A service by a thread for each pass, and how a service ends.
ghost use Rattle.std.specs.Prelude.{◌≡◌, true, false, All};
ghost use Rattle.lz_set.specs.Names.{MayCall};
ghost use Rattle.lz_serve.specs.Halts.{IsCalmAfter};
ghost use Rattle.lz_serve.specs.Services.{Serves, parts_of};

use crate::given::Given;
use crate::listener::Listener;
use crate::observer::{Lack, Leased, Observer};
use crate::pass_thread::Host;
use crate::workers::{Worker, serve_by};
use lz_disk::Disk;
use lz_set::{Named, Pass, Set, StepGate};
use std::alloc::{AllocError, Global};
use std::marker::Brand;
use std::sync::Wait;
use std::sync::atomic::AtomicBool;
use std::thread::Threads;
use std::time::{Clock, Duration};

/// When sessions and passes end.
#[derive(Clone, Copy, Debug, PartialEq, Eq)]
pub struct Bounds {
    /// After how many sessions each pass ends; 0 for no end.
    pub sessions: u64,
    /// For how long a client may send nothing, or take nothing of its replies, before its session ends.
    pub idle: Option<Duration>,
}

/// How a service ended.
#[derive(Drop)]
pub struct Served {
    /// The passes, each as it was given or as its thread left it.
    pub passes: Vec<Pass>,
    /// A call of these passes was answered that the set is halted or that the device failed, also where the client didn't get the reply.
    pub halted: bool,
    /// It served nobody, as the observer was told, and the passes are those that were given.
    pub unserved: bool,
}

/// Nobody is served by these passes, for this reason.
pub fn none_served<O: Observer>(passes: Vec<Pass>, observer: &O, why: Lack) -> Served
    ensures passes { result.passes ≡ passes }
    ensures halted { result.halted ≡ false }
    ensures unserved { result.unserved ≡ true }
{
    observer.unserved(why);
    Served {
        passes,
        halted: false,
        unserved: true,
    }
}

/// Serves connections with a thread for each pass, which serves one connection after the other: so many of them, or
/// without an end where `bounds.sessions` is 0. A session that ended with a fault, or because its client was idle, counts too. A thread
/// ends as well after a session that found the set halted; the first one tells the observer. A connection for which no thread is free waits
/// in the listener's queue. Where no thread can be made for a pass, this one serves by it before it tries the next. One pass serves in this
/// thread.
pub fn serve<D, G, N, R, O>(
    rt: &R,
    listener: &Listener,
    set: &Set<D, G, N>,
    passes: Vec<Pass>,
    bounds: Bounds,
    observer: &O,
) -> Served
where
    D: Disk + Send,
    G: StepGate + Send + Sync,
    N: Named + Send + Sync,
    R: Threads + Wait + Clock + AllocGlobal + Sync,
    O: Leased + Sync,
    O::Tether: Send + Sync,
    requires may_call { All (MayCall N.board) passes.items }
    ensures { Serves N.board (parts_of passes.items) passes result }
{
    let told = AtomicBool::new(false);
    let own = Host {
        rt,
        listener,
        set,
        bounds,
        observer,
        told: &told,
    };
    serve_hosts::<D, G, N, Brand, R, O>(rt, own, passes, observer)
}

// Serves by this host and one more for each further pass. B names the passes.
fn serve_hosts<D, G, N, B, R, O>(
    rt: &R,
    own: Host<'_, D, G, N, R, O>,
    passes: Vec<Pass>,
    observer: &O,
) -> Served
where
    D: Disk + Send,
    G: StepGate + Send + Sync,
    N: Named + Send + Sync,
    B: Given + Send + Sync,
    R: Threads + Wait + Clock + AllocGlobal + Sync,
    O: Leased + Sync,
    O::Tether: Send + Sync,
    requires may_call { All (MayCall N.board) passes.items }
    requires calm { All (IsCalmAfter B.parts) passes.items }
    ensures { Serves N.board B.parts passes result }
{
    match hosts_like(rt.alloc(), &own, passes.len().saturating_sub(1)) {
        Ok(others) => serve_by::<D, G, N, B, R, O>(
            rt,
            Worker::Host(own),
            None,
            others,
            passes,
            observer,
        ),
        Err(AllocError) => none_served(passes, observer, Lack::Memory),
    }
}

// So many more hosts that serve the same.
fn hosts_like<'a, D, G, N, R, O>(
    alloc: Global,
    host: &Host<'a, D, G, N, R, O>,
    count: usize,
) -> Result<Vec<Worker<'a, D, G, N, R, O>>, AllocError>
where
    D: Disk,
    G: StepGate,
    N: Named,
    R: Wait + Clock + AllocGlobal,
    O: Leased,
{
    let mut hosts = Vec::new(alloc);
    for _ in 0..count {
        hosts.push(Worker::Host(host.again()))?;
    }
    Ok(hosts)
}
