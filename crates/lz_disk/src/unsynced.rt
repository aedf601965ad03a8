// What was written since the last sync, as only clauses read it.
ghost use Rattle.std.specs.Prelude.{◌≡◌, ◌-◌, ℕ, List, [], ◌∷◌, ◌++◌, length, take};
ghost use Rattle.std.specs.Borrow.{ftrue};

use crate::Disk;
use std::marker::{Model, PhantomData};
use std::snapshot::Snapshot;

// The writes since the last sync, each as its start and its bytes, the last one first. It has no bytes and owns nothing, so only
// clauses tie them.
#[derive(Drop)]
pub(crate) struct Unsynced {
    marker: PhantomData<u8>,
    pub(crate) ghost writes: { List (ℕ × List ℕ) },
}

impl Model for Unsynced {
    ghost also_owns = { λ _. ftrue };
}

// A struct with `also_owns` has neither by itself.
unsafe impl Send for Unsynced {}

unsafe impl Sync for Unsynced {}

impl Unsynced {
    // Any at all.
    fn any() -> Unsynced
        ghost writes: { List (ℕ × List ℕ) }
        ensures { result.writes ≡ writes }
    {
        Unsynced {
            marker: PhantomData,
        }
    }

    // Those that the caller names of these values.
    fn of_values<A, B, C>(first: &A, second: &B, third: &C) -> Unsynced
        ghost writes: { List (ℕ × List ℕ) }
        ensures { result.writes ≡ writes }
    {
        let _ = first;
        let _ = second;
        let _ = third;
        Unsynced::any()
    }

    pub(crate) fn none() -> Unsynced
        ensures { result.writes ≡ [] }
    {
        Unsynced::any()
    }

    // Those of a file that was made or opened.
    pub(crate) fn of<F: Disk>(file: &F) -> Unsynced
        ensures { result.writes ≡ (F.device file.now).medium.loose }
    {
        Unsynced::of_values(file, &(), &())
    }

    // These and one more.
    pub(crate) fn and(&self, at: u64, bytes: &[u8]) -> Unsynced
        ensures { result.writes ≡ (at, bytes.now) ∷ self.now.writes }
    {
        Unsynced::of_values(self, &at, &bytes)
    }

    // These and those that the file has got meanwhile.
    pub(crate) fn and_of<F: Disk>(&self, before: &Snapshot<F>, file: &F) -> Unsynced
        ensures { let old = (F.device before.now.value).medium.loose in let new = (F.device file.now).medium.loose in
            result.writes ≡ take (length new - length old) new ++ self.now.writes }
    {
        Unsynced::of_values(self, before, file)
    }
}
