// What is known of the slots, as only clauses read it.
ghost use Rattle.std.specs.Prelude.{◌≡◌, List, [], ◌∷◌, ◌++◌, slice_index_or, slice_set};
ghost use Rattle.std.specs.Borrow.{ftrue};
ghost use Rattle.lz_vault.specs.Members.{no_cell};
ghost use Rattle.lz_vault.specs.Stages.{Cell};

use crate::vault::Stage;
use lz_slot::Slot;
use std::marker::{Model, PhantomData};

// The cells of the slots: their stages, and the keys that were put into them last. It has no bytes and owns nothing, so only clauses
// tie them.
#[derive(Drop)]
pub(crate) struct Known {
    marker: PhantomData<u8>,
    pub(crate) ghost cells: { List Cell },
}

impl Model for Known {
    ghost also_owns = { λ _. ftrue };
}

// A struct with `also_owns` has neither by itself.
unsafe impl Send for Known {}

unsafe impl Sync for Known {}

impl Known {
    // Any at all.
    fn any() -> Known
        ghost cells: { List Cell }
        ensures { result.cells ≡ cells }
    {
        Known {
            marker: PhantomData,
        }
    }

    // Those that the caller names of these values.
    fn of_values<A, B, C, D>(first: &A, second: &B, third: &C, fourth: &D) -> Known
        ghost cells: { List Cell }
        ensures { result.cells ≡ cells }
    {
        let _ = first;
        let _ = second;
        let _ = third;
        let _ = fourth;
        Known::any()
    }

    pub(crate) fn none() -> Known
        ensures { result.cells ≡ [] }
    {
        Known::any()
    }

    // These and one more.
    pub(crate) fn and(&self, stage: Stage, key: u64) -> Known
        ensures { result.cells ≡ self.now.cells ++ record { stage = stage; key = key } ∷ [] }
    {
        Known::of_values(self, &stage, &key, &())
    }

    // These, but for a slot that has another stage and key.
    pub(crate) fn with(&self, slot: Slot, stage: Stage, key: u64) -> Known
        ensures { result.cells ≡ slice_set self.now.cells slot (record { stage = stage; key = key }) }
    {
        Known::of_values(self, &slot, &stage, &key)
    }

    // These, but for a slot that has another stage.
    pub(crate) fn turned(&self, slot: Slot, stage: Stage) -> Known
        ensures { result.cells ≡ slice_set self.now.cells slot (record { stage = stage; key = (slice_index_or self.now.cells slot no_cell).key }) }
    {
        Known::of_values(self, &slot, &stage, &())
    }
}
