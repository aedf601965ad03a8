//! Loops that serve a set together, each with passes and connections of its own.
ghost use Rattle.std.specs.Prelude.{◌≡◌, ◌≤◌, All, vec_len};
ghost use Rattle.lz_set.specs.Names.{MayCall};
ghost use Rattle.lz_serve.specs.Halts.{IsCalmAfter};
ghost use Rattle.lz_serve.specs.Services.{Serves, parts_of};

use crate::desk::Desk;
use crate::free_pass::FreePass;
use crate::given::Given;
use crate::listener::Listener;
use crate::loads::Loads;
use crate::observer::{Lack, Leased, Loops};
use crate::server::{Bounds, Served, none_served};
use crate::serving::{serve_in, serve_loop, take_in_all};
use crate::socket::Socket;
use crate::sockets::Sockets;
use crate::workers::{Worker, serve_by};
use lz_disk::Disk;
use lz_set::{Named, Pass, Set, StepGate};
use std::alloc::AllocError;
use std::marker::Brand;
use std::net::Net;
use std::sync::Wait;
use std::sync::atomic::AtomicBool;
use std::thread::Threads;
use std::time::Clock;

/// Serves connections by loops, one of them in this thread, each of which has a share of the passes and of the connections, and serves so
/// many sessions, or without an end where `bounds.sessions` is 0. A loop ends as well once one of them has found the set halted. Where there are as
/// many connections as there may be, further ones wait in the listener's queue.
#[tactic(auto, using(crate::proofs::JoinedPasses::calm_after))]
pub fn serve_loops<D, G, N, R, O>(
    rt: &R,
    listener: &Listener,
    set: &Set<D, G, N>,
    passes: Vec<Pass>,
    loops: Loops,
    bounds: Bounds,
    observer: &O,
) -> Served
where
    D: Disk + Send,
    G: StepGate + Send + Sync,
    N: Named + Send + Sync,
    R: Net + Threads + Wait + Clock + AllocGlobal + Sync,
    O: Leased + Sync,
    O::Tether: Send + Sync,
    requires may_call { All (MayCall N.board) passes.items }
    ensures { Serves N.board (parts_of passes.items) passes result }
{
    let told = AtomicBool::new(false);
    let count = loops.count_for(passes.len());
    let Ok(loads) = Loads::new(rt.alloc(), count) else {
        return none_served(passes, observer, Lack::Memory);
    };
    let connections = loops.connections.saturating_add(loops.places_inside());
    let mut sockets = match sockets_of(rt, listener, &loops, &loads, observer, count) {
        Ok(sockets) => sockets,
        Err(why) => return none_served(passes, observer, why),
    };
    let Some(own) = sockets.pop() else {
        return none_served(passes, observer, Lack::Memory);
    };
    if sockets.is_empty() {
        let (served, _sockets) = serve_loop(
            rt,
            own,
            set,
            passes,
            connections,
            bounds,
            observer,
            &told,
        );
        return served;
    }
    serve_several::<D, G, N, Brand, R, O>(
        rt,
        own,
        sockets,
        set,
        passes,
        connections,
        bounds,
        observer,
        &told,
    )
}

// What each of so many loops waits for.
fn sockets_of<'a, R, O>(
    rt: &'a R,
    listener: &Listener,
    loops: &Loops,
    loads: &'a Loads,
    observer: &'a O,
    count: usize,
) -> Result<Vec<Sockets<'a, R, O::Tether>>, Lack>
where
    R: Net + Clock + AllocGlobal,
    O: Leased,
{
    let mut all = Vec::new(rt.alloc());
    for index in 0..count {
        let clearings = match loops.forgetting {
            Some(shared) => shared.sweeps(),
            None => observer.clearings(),
        };
        let lease = observer.lease();
        let sockets = Sockets::new(rt, listener, loops, loads, clearings, lease, index).map_err(
            Lack::System,
        )?;
        if all.push(sockets).is_err() {
            return Err(Lack::Memory);
        }
    }
    Ok(all)
}

// Serves by several loops. B names the passes.
fn serve_several<D, G, N, B, R, O>(
    rt: &R,
    own: Sockets<'_, R, O::Tether>,
    sockets: Vec<Sockets<'_, R, O::Tether>>,
    set: &Set<D, G, N>,
    passes: Vec<Pass>,
    connections: usize,
    bounds: Bounds,
    observer: &O,
    told: &AtomicBool,
) -> Served
where
    D: Disk + Send,
    G: StepGate + Send + Sync,
    N: Named + Send + Sync,
    B: Given + Send + Sync,
    R: Threads + Wait + Clock + AllocGlobal + Sync,
    O: Leased + Sync,
    O::Tether: Send + Sync,
    requires may_call { All (MayCall N.board) passes.items }
    requires calm { All (IsCalmAfter B.parts) passes.items }
    ensures { Serves N.board B.parts passes result }
{
    let mut left = sockets.len().saturating_add(1);
    let mut connections = connections;
    let mut others = Vec::new(rt.alloc());
    for sockets in sockets {
        let part = connections / left.max(1);
        connections = connections.saturating_sub(part);
        left = left.saturating_sub(1);
        let other = Loop {
            rt,
            set,
            sockets,
            connections: part,
            bounds,
            observer,
            told,
        };
        if others.push(Worker::Loop(other)).is_err() {
            return none_served(passes, observer, Lack::Memory);
        }
    }
    let own = Loop {
        rt,
        set,
        sockets: own,
        connections,
        bounds,
        observer,
        told,
    };
    match Desk::<Socket<'_, R, O::Tether>, N, B>::new(rt.alloc(), passes.len(), connections) {
        Ok(desk) => { serve_by(rt, Worker::Loop(own), Some(desk), others, passes, observer) }
        Err(AllocError) => none_served(passes, observer, Lack::Memory),
    }
}

/// A loop, which makes its desk once it begins.
#[derive(Drop)]
pub(crate) struct Loop<'a, D: Disk, G: StepGate, N: Named, R: Clock, O: Leased> {
    rt: &'a R,
    set: &'a Set<D, G, N>,
    sockets: Sockets<'a, R, O::Tether>,
    connections: usize,
    bounds: Bounds,
    observer: &'a O,
    told: &'a AtomicBool,
}

impl<'a, D: Disk, G: StepGate, N: Named, R: Wait + Clock + AllocGlobal, O: Leased> Loop<
    'a,
    D,
    G,
    N,
    R,
    O,
> {
    /// Serves by these passes. Where no memory is left for its clients it serves none.
    pub(crate) fn serve<B: Given>(self, share: Vec<FreePass<N, B>>) -> Vec<FreePass<N, B>>
        ensures { vec_len result ≡ vec_len share }
    {
        match Desk::new(self.rt.alloc(), share.len(), self.connections) {
            Ok(desk) => self.serve_at(desk, share),
            Err(AllocError) => {
                self.observer.unserved(Lack::Memory);
                share
            }
        }
    }

    /// Serves by these passes at this desk.
    pub(crate) fn serve_at<B: Given>(
        self,
        desk: Desk<Socket<'a, R, O::Tether>, N, B>,
        share: Vec<FreePass<N, B>>,
    ) -> Vec<FreePass<N, B>>
        requires { (desk.given ≡ 0) × (desk.free ≡ 0) × (vec_len share ≤ desk.most) }
        ensures { vec_len result ≡ vec_len share }
    {
        let Loop {
            rt,
            set,
            sockets,
            connections: _,
            bounds,
            observer,
            told,
        } = self;
        let desk = take_in_all(desk, share);
        let (free, _sockets) = serve_in::<D, G, N, B, Brand, R, O, Sockets<'a, R, O::Tether>>(
            rt, sockets, set, desk, bounds, observer, told,
        );
        free
    }
}
