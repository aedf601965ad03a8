//! What each of several loops has of a set's passes, and hands back.
ghost use Rattle.std.specs.Prelude.{◌≡◌, ◌+◌, ◌≤◌, All, vec_capacity, vec_len};
ghost use Rattle.lz_set.specs.Names.{MayCall};
ghost use Rattle.lz_serve.specs.Halts.{IsCalmAfter};
ghost use Rattle.lz_serve.specs.Promised.{promised};

use crate::free_pass::FreePass;
use crate::given::Given;
use lz_set::{Named, Pass};
use std::alloc::Global;
use std::thread::{Promise, PromisedHandle, Threads};

/// These passes as free ones, for which there is room.
pub(crate) fn set_free<N: Named, B: Given>(
    passes: Vec<Pass>,
    room: Vec<FreePass<N, B>>,
) -> Vec<FreePass<N, B>>
    requires may_call { All (MayCall N.board) passes.items }
    requires calm { All (IsCalmAfter B.parts) passes.items }
    requires empty { vec_len room ≡ 0 }
    requires room { vec_len passes ≤ vec_capacity room }
    ensures { vec_len result ≡ vec_len passes }
{
    let mut free = room;
    let mut passes = passes;
    while let Some(pass) = passes.pop() {
        let Ok(()) = free.push(FreePass::new(pass, false)) else {
            unreachable!()
        };
    }
    free
}

/// A share of these passes for the next of so many loops: none where no memory is left.
pub(crate) fn take_share<N: Named, B: Given>(
    alloc: Global,
    free: &mut Vec<FreePass<N, B>>,
    loops: usize,
) -> Vec<FreePass<N, B>>
    ensures { vec_len result + vec_len free.new ≡ vec_len free.old }
{
    let rest = free.len().saturating_sub(free.len() / loops.max(1));
    match free.split_off(rest) {
        Ok(share) => share,
        Err(_) => Vec::new(alloc),
    }
}

/// Puts some passes to the others, where there is room for them.
pub(crate) fn add_all<N: Named, B: Given>(free: &mut Vec<FreePass<N, B>>, more: Vec<FreePass<N, B>>)
    requires { vec_len free.old + vec_len more ≤ vec_capacity free.old }
    ensures count { vec_len free.new ≡ vec_len free.old + vec_len more }
    ensures room { vec_capacity free.old ≤ vec_capacity free.new }
{
    let mut more = more;
    let Ok(()) = free.append(&mut more) else {
        unreachable!()
    };
}

/// How many passes a loop hands back.
#[derive(Drop)]
pub(crate) struct HandsBack {
    pub(crate) count: usize,
}

impl<N: Named, B: Given> Promise<Vec<FreePass<N, B>>> for HandsBack {
    ghost use Rattle.std.specs.Prelude.{◌≡◌, vec_len};

    ghost kept_by = { λ promise free. vec_len free ≡ promise.count };
}

/// A loop that runs in a thread of its own.
pub(crate) type Running<N, B> = PromisedHandle<Vec<FreePass<N, B>>, HandsBack>;

/// Waits for each loop, and puts its passes to the others, where there is room for them.
pub(crate) fn join_all<N: Named, B: Given, R: Threads>(
    rt: &R,
    threads: Vec<Running<N, B>>,
    free: Vec<FreePass<N, B>>,
) -> Vec<FreePass<N, B>>
    requires { vec_len free + promised threads.items ≤ vec_capacity free }
    ensures { vec_len result ≡ vec_len free + promised threads.items }
{
    let mut free = free;
    for thread in threads {
        add_all(&mut free, thread.join(rt));
    }
    free
}
