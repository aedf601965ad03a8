//! What walkers can see of a change.
use lz_slot::{Key, Slot};

/// Which change of a slot was settled.
#[derive(Clone, Copy, Debug, PartialEq, Eq)]
pub enum Change {
    Added,
    Removed,
}

/// A change that walkers can see. The last number of a linking, a marking and an unlinking is the pass that it was made
/// for, 0 for the open.
#[derive(Clone, Copy, Debug, PartialEq, Eq)]
pub enum Publishing {
    /// A node with this key, in this slot, is linked.
    Linked(Key, Slot, usize),
    Marked(Key, Slot, usize),
    Unlinked(Key, Slot, usize),
    /// The last linking in this slot is settled, as added or as removed.
    Settled(Slot, Change),
    /// The key word of a slot that isn't linked becomes this key.
    KeyPrepared(Slot, Key),
    /// The link word of a slot that isn't linked becomes this next link, without bits.
    LinkPrepared(Slot, u64),
    Halted,
}
