//! Who sorts the members that an open has read.
ghost use Rattle.std.specs.Prelude.{◌≡◌, length};
ghost use Rattle.std.specs.List.Sorted.{IsPermutation};
ghost use Rattle.lz_vault.specs.Members.{AreInOrder};

use lz_slot::Slot;

/// Sorts members by key, and by slot where a key stands twice. Of a large file that is most of an open's work, so who has threads may share it
/// among them.
pub trait Sorter {
    ghost use Rattle.std.specs.Prelude.{⊤};

    /// What it needs to be called.
    ghost ready: { Self → Type 0 } = { λ _. ⊤ };

    fn sort(&self, members: &mut [(u64, Slot)])
        requires { ready self.now }
        ensures permutation { IsPermutation members.old members.new }
        ensures len { length members.new ≡ length members.old }
        ensures sorted { AreInOrder members.new };
}

/// Sorts in the thread that opens.
#[derive(Clone, Copy, Debug, Drop)]
pub struct OneThread;

impl Sorter for OneThread {
    fn sort(&self, members: &mut [(u64, Slot)]) {
        members.sort_unstable();
    }
}
