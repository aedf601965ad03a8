//! What callers that share a set have in common: their passes, its first members, and a call.
ghost use Rattle.std.specs.Prelude.{All, IfSome};
ghost use Rattle.lz_set.specs.Names.{MayCall};

use crate::threads::ask;
use lz_disk::MemoryDisk;
use lz_set::{Fault, Named, Pass, Set, StepGate};
use lz_slot::{Command, Key};
use std::sync::Wait;
use test_support::last_pass;

/// The last two of a set's passes that are left.
pub fn two_passes<N: Named>(passes: &mut Vec<Pass>) -> Option<(Pass, Pass)>
    requires may { All (MayCall N.board) passes.old.items }
    ensures rest { All (MayCall N.board) passes.new.items }
    ensures both { IfSome result (λ r. MayCall N.board r.0 × MayCall N.board r.1) }
{
    let second = last_pass::<N>(passes)?;
    let first = last_pass::<N>(passes)?;
    Some((first, second))
}

/// Adds 10, 20 and 30, in this order.
pub fn fill<G: StepGate, N: Named, R: Wait>(
    rt: &R,
    set: &Set<MemoryDisk, G, N>,
    pass: &mut Pass,
) -> Option<()>
    requires { MayCall N.board pass.old }
    ensures { MayCall N.board pass.new }
{
    for number in [10, 20, 30] {
        let _ = set.add(rt, pass, Key::new(number)?);
    }
    Some(())
}

/// Asks a set once, by a pass that does nothing else.
pub fn call_once<G: StepGate, N: Named, R: Wait>(
    rt: &R,
    set: &Set<MemoryDisk, G, N>,
    pass: Pass,
    command: Command,
) -> Result<bool, Fault>
    requires { MayCall N.board pass }
{
    let mut pass = pass;
    ask(rt, set, &mut pass, command)
}
