//! What an actor has in hand.
use lz_list::Place;
use lz_slot::Slot;

/// How far an actor has come between a claim and its release.
#[derive(Clone, Copy, Debug, PartialEq, Eq)]
pub enum LockPhase {
    Nothing,
    Locks,
    Checked,
    GateOpened,
    Linked,
    GateClosed,
    Marked,
    Unlinked,
    /// It has released the locks of a node that it unlinked.
    Released,
}

/// What an actor has in hand: a slot that it has reserved and not linked, and the pair that it claimed last; and whether the
/// file's format can't hold the key that its last call adds. After a device failure it keeps what it had.
#[derive(Clone, Copy, Debug, PartialEq, Eq)]
pub struct Actor {
    pub slot: Option<Slot>,
    pub hold: LockPhase,
    pub pred: Place,
    pub curr: Option<Slot>,
    pub refused: bool,
}
