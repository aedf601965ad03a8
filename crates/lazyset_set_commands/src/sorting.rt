//! A sort that threads share.
use lz_slot::Slot;
use lz_vault::Sorter;
use rayon::prelude::par_sort_unstable;
use std::thread::Threads;

/// Sorts by as many threads as there are processors, and by this one where no other can be made.
#[derive(Drop)]
pub(crate) struct AllProcessors<'a, R> {
    pub(crate) rt: &'a R,
}

impl<'a, R: Threads + Sync> Sorter for AllProcessors<'a, R> {
    ghost use Rattle.std.specs.Thread.{IsSync};

    ghost ready = { λ _. IsSync R.row };

    fn sort(&self, members: &mut [(u64, Slot)]) {
        par_sort_unstable(self.rt, members);
    }
}
