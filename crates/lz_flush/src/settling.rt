//! Flags of changes that are durable.
ghost use Rattle.std.specs.Prelude.{◌≡◌, ◌⊎◌, true};
ghost use Rattle.lz_flush.specs.Settling.{may_answer, settle};

use crate::need::Need;
use lz_list::Flags;
use lz_vault::Stage;

/// What an answer needs that rests on a node with these flags: where its last change isn't settled, a sync comes first.
pub fn may_answer(flags: Flags) -> Need
    ensures { result ≡ may_answer flags }
{
    let is_settled = if flags.mark {
        flags.remove_settled
    } else {
        flags.add_settled
    };
    if is_settled { Need::Now } else { Need::Sync }
}

/// The flags of a slot's node in this stage: a gate that is surely open settles the adding, and one that is surely closed
/// settles both, since it was opened before. Any other stage settles nothing.
pub fn settle(stage: Stage, flags: Flags) -> Flags
    ensures flags { result ≡ settle stage flags }
    ensures added { result.add_settled ≡ true → (flags.add_settled ≡ true) ⊎ (stage ≡ Stage.Open) ⊎ (stage ≡ Stage.Closed) }
    ensures removed { result.remove_settled ≡ true → (flags.remove_settled ≡ true) ⊎ (stage ≡ Stage.Closed) }
    ensures mark { result.mark ≡ flags.mark }
{
    match stage {
        Stage::Open => Flags {
            add_settled: true,
            ..flags
        },
        Stage::Closed => Flags {
            add_settled: true,
            remove_settled: true,
            ..flags
        },
        _ => flags,
    }
}
