// A count without end, as only clauses read it: how often a device was called, or has failed.
ghost use Rattle.std.specs.Prelude.{◌≡◌, ℕ, ◌+◌};
ghost use Rattle.std.specs.Borrow.{ftrue};

use std::marker::{Model, PhantomData};

// It has no bytes and owns nothing, so only clauses tie the count.
#[derive(Drop)]
pub(crate) struct Tally {
    marker: PhantomData<u8>,
    pub(crate) ghost count: { ℕ },
}

impl Model for Tally {
    ghost also_owns = { λ _. ftrue };
}

// A struct with `also_owns` has neither by itself.
unsafe impl Send for Tally {}

unsafe impl Sync for Tally {}

impl Tally {
    pub(crate) fn new() -> Tally
        ensures { result.count ≡ 0 }
    {
        Tally {
            marker: PhantomData,
        }
    }

    pub(crate) fn count_one(&mut self)
        ensures { self.new.count ≡ self.old.count + 1 }
    {}
}
