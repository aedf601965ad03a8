//! What a list answers.
use crate::answer::GlanceFault;
use lz_slot::{Key, Slot};

/// Keys of members, in the order of their slots. One that was removed and added again meanwhile may be told twice.
#[derive(Drop)]
pub struct Page {
    pub keys: Vec<Key>,
    /// The slot to go on from; None where all slots up to the last were looked at.
    pub next: Option<Slot>,
}

/// Why a pass that has no call told no page.
#[derive(Clone, Copy, Debug, PartialEq, Eq)]
pub enum ListFault {
    /// There is no memory for the keys.
    Memory,
    /// It could not look, as at a glance.
    Glance(GlanceFault),
}
