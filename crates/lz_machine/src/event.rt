//! Events, and what they answer.
use lz_allot::Counts;
use lz_list::{Place, Word};
use lz_slot::{Command, Key, Slot};

/// One atomic action of one actor.
#[derive(Clone, Copy, Debug, PartialEq, Eq)]
pub enum Event {
    Invoke(Command),
    Pin,
    /// Loads a word.
    Hop(Word),
    /// Takes the lowest free slot.
    Reserve,
    WriteKey(Key),
    /// Takes the node locks of a place and of the node after it, if there is one.
    Claim(Place, Option<Slot>),
    /// Tests that neither is marked and that the place leads to the node.
    Check,
    WriteOpen,
    Link,
    WriteClose,
    Mark,
    Release,
    /// Makes durable what was written into this slot last.
    Sync(Slot),
    Settle(Slot),
    Unlink,
    Retire,
    /// Looks at the pin word of a pass, which has this value.
    SeePin(usize, u64),
    Answer,
    Halt,
}

/// What an event answered.
#[derive(Clone, Copy, Debug, PartialEq, Eq)]
pub enum Outcome {
    Done,
    Value(u64),
    Slot(Slot),
    NoSlot(Counts),
    Taken,
    Busy,
    True,
    False,
    /// The slot's last write isn't durable yet.
    Early,
    /// The pass can't be pinned any more.
    Worn,
    /// A file of this format can't hold the key that the call adds.
    OldFile,
    /// The event's needs don't hold.
    NotNow,
    /// The device failed in this event.
    Fault,
    /// The device has failed before.
    Dead,
}

/// What a call answers.
#[derive(Clone, Copy, Debug, PartialEq, Eq)]
pub enum Reply {
    Yes,
    No,
    Full(Counts),
    Worn,
    OldFile,
    Halted,
    Device,
}
