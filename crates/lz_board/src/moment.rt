//! Moments of a device.
ghost use Rattle.std.specs.Prelude.{ℕ};
ghost use Rattle.std.specs.Borrow.{ftrue};

use std::marker::{Model, PhantomData};

/// A moment of a device, as only clauses read it. It has no bytes and owns nothing, so only a clause ties it.
#[derive(Drop)]
pub struct Moment {
    marker: PhantomData<u8>,
    pub ghost at: { ℕ },
}

impl Model for Moment {
    ghost also_owns = { λ _. ftrue };
}

// A struct with `also_owns` has neither by itself.
unsafe impl Send for Moment {}

unsafe impl Sync for Moment {}

impl Moment {
    ghost use Rattle.std.specs.Prelude.{◌≡◌};
    ghost use Rattle.lz_board.specs.Notes.{moment_at};

    /// Any moment.
    pub fn new() -> Moment
        ghost moment: { ℕ }
        ensures { result ≡ moment_at moment }
    {
        Moment {
            marker: PhantomData,
        }
    }
}
