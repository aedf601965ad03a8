//! What a slot is used for.
ghost use Rattle.std.specs.Prelude.{◌≡◌, ◌<◌, ◌↔◌, count_by, replicate, All, IsTrue, IfOk};
ghost use Rattle.lz_allot.specs.Allots.{is_free_kind, set_each};

use lz_slot::Slot;
use std::alloc::{AllocError, Global};

#[derive(Clone, Copy)]
pub(crate) enum Kind {
    Free,
    Taken,
    Limbo,
}

// The kinds of slots of which these are taken and the others free.
pub(crate) fn first_kinds(
    alloc: Global,
    slots: usize,
    taken: &[Slot],
) -> Result<Vec<Kind>, AllocError>
    requires { All (λ s. s < slots) taken.now }
    ensures { IfOk result (λ kinds. kinds.items ≡ set_each (replicate slots Kind.Free) taken.now Kind.Taken) }
{
    let mut kinds = vec![in alloc; Kind::Free; slots]?;
    for slot in taken {
        kinds[slot.index() as usize] = Kind::Taken;
    }
    Ok(kinds)
}

pub(crate) fn is_free(kind: &Kind) -> bool
    ensures { result ≡ is_free_kind kind.now }
{
    matches!(kind, Kind::Free)
}

pub(crate) fn is_taken(kind: &Kind) -> bool
    ensures { IsTrue result ↔ (kind.now ≡ Kind.Taken) }
{
    matches!(kind, Kind::Taken)
}

pub(crate) fn count_free(kinds: &[Kind]) -> usize
    ensures { result ≡ count_by is_free_kind kinds.now }
{
    kinds.iter().filter(|kind| is_free(kind)).count()
}
