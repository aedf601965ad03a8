//! The words that threads share.
use lz_slot::Slot;

/// A word that threads share. Passes count from 1.
#[derive(Clone, Copy, Debug, PartialEq, Eq)]
pub enum Word {
    /// A bucket's head: the link to its first node.
    Head(usize),
    /// A node's next link and its flags.
    Link(Slot),
    Key(Slot),
    /// How often a pass has gone in and out.
    Pin(usize),
    /// Whether the service is over.
    Halt,
}
