//! The fixed order of one command's events.
use crate::event::Reply;
use lz_list::{Look, Place};
use lz_slot::Slot;

/// Events that are played one after the other.
#[derive(Clone, Copy, Debug, PartialEq, Eq)]
pub enum Sequence {
    Pinning,
    /// It rests on a node whose last change isn't settled, and then gives this reply.
    Resting(Slot, Reply),
    /// It writes its key into the slot that it reserved.
    Writing(Slot),
    Adding(Slot),
    Removing(Slot),
    /// It gives its locks back, and walks again, with this slot.
    Releasing(Option<Slot>),
    Halting(Reply),
}

/// How far a call has come: what it plays next. A slot in it is the one in which the key was written and synced.
#[derive(Clone, Copy, Debug, PartialEq, Eq)]
pub enum Progress {
    /// The event of a sequence with this index.
    Playing(Sequence, usize),
    /// Its first walk begins with the halt word.
    LoadsHalt,
    Walking(Option<Slot>, Look),
    /// It asks for a slot, and whether it has seen the pins before.
    Reserving(bool),
    /// It looks at the pin word of this pass.
    SeeingPins(usize),
    Claiming(Option<Slot>, Place, Option<Slot>),
    /// It tests what it claimed, whose node is this one.
    Checking(Option<Slot>, Option<Slot>),
    Answering(Reply),
}
