//! A look at the mark of texts in a set that was opened: it waits for nobody, and asks nothing of the device.
ghost use Rattle.std.specs.Prelude.{◌≡◌, All, length, map};
ghost use Rattle.lz_board.specs.Seats.{part};
ghost use Rattle.lz_set.specs.Names.{MayCall};
ghost use Rattle.lazyset_file_commands.specs.Marks.{texts_mark};
ghost use Rattle.lazyset_set_commands.specs.Looks.{HasLooked, is_yes};
ghost use Rattle.lazyset_set_commands.specs.Services.{AreUnused};

use lazyset_file_commands::TEXTS_MARK;
use lz_disk::Disk;
use lz_set::{Glance, GlanceFault, Named, NoGate, Pass, Set};
use lz_slot::Key;

/// Is told of a set's keys once it was opened.
pub trait Heed {
    /// There are so many, and maybe the mark that they are texts.
    fn found(&self, members: usize, mark: bool);
}

/// Heeds nothing.
#[derive(Clone, Copy, Debug)]
pub struct NoHeed;

impl Heed for NoHeed {
    fn found(&self, _members: usize, _mark: bool) {}
}

// Whether the set has the mark that its keys are texts, as far as that is durable, as the pass sees it.
pub(crate) fn has_mark<D, N>(set: &Set<D, NoGate, N>, pass: &mut Pass) -> bool
where
    D: Disk,
    N: Named,
    requires { MayCall N.board pass.old }
    ensures may_call { MayCall N.board pass.new }
    ensures looked { HasLooked texts_mark result (part pass.old) (part pass.new) }
{
    match Key::of_rank(TEXTS_MARK) {
        Some(mark) => is_yes(set.glance(pass, mark)),
        None => false,
    }
}

// Whether a glance has found its key for sure.
fn is_yes(answer: Result<Glance, GlanceFault>) -> bool
    ensures { result ≡ is_yes answer }
{
    matches!(answer, Ok(Glance::Yes))
}

// The same of the first of these passes, where there is one.
pub(crate) fn first_sees_mark<D, N>(set: &Set<D, NoGate, N>, passes: &mut Vec<Pass>) -> bool
where
    D: Disk,
    N: Named,
    requires { All (MayCall N.board) passes.old.items }
    ensures may_call { All (MayCall N.board) passes.new.items }
    ensures count { length passes.new.items ≡ length passes.old.items }
    ensures unused { AreUnused (map (λ p. part p) passes.old.items) → AreUnused (map (λ p. part p) passes.new.items) }
{
    if passes.is_empty() {
        return false;
    }
    has_mark(set, &mut passes[0])
}
