//! The passes of a set.
ghost use Rattle.std.specs.Prelude.{All, IfSome};
ghost use Rattle.lz_set.specs.Names.{MayCall};

use lz_set::{Named, Pass};

/// The last of a set's passes that are left.
pub fn last_pass<N: Named>(passes: &mut Vec<Pass>) -> Option<Pass>
    requires may { All (MayCall N.board) passes.old.items }
    ensures rest { All (MayCall N.board) passes.new.items }
    ensures last { IfSome result (λ pass. MayCall N.board pass) }
{
    passes.pop()
}
