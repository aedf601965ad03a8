//! What a seat knows. Of these types only notes are made.
use crate::moment::Moment;
use lz_list::{Publishing, Sizes, Word, Words};
use lz_machine::{Event, Outcome};
use lz_slot::{Command, Format};
use std::collections::LinkedList;
use std::snapshot::Snapshot;

/// What was noted.
#[derive(Clone, Copy)]
pub enum What {
    /// A call was made, on a file of this format.
    Called(Command, Format),
    /// An event was played, with this outcome.
    Played(Event, Outcome),
    /// The pin word of this pass was found with this value.
    Found(usize, u64),
}

/// A step that the pen has noted: the pass that took it, 0 for the pen itself, what it published, and of an event that was played the
/// device's moment after it.
#[derive(Drop)]
pub struct Note {
    pub by: usize,
    pub what: What,
    pub published: Option<Publishing>,
    pub moment: Moment,
}

/// A load of a call that isn't noted yet, made where the trace had the length `at`.
pub struct Load {
    pub word: Word,
    pub value: u64,
    pub at: u64,
}

/// What belongs to one pass alone: its pin word, the trace at its last change, what the pass has seen, its steps among
/// the notes, the length of the trace at the last of these, and its loads since.
pub struct Part {
    pub sizes: Sizes,
    pub number: usize,
    pub pin: u64,
    pub begun: LinkedList<Publishing>,
    pub known: LinkedList<Publishing>,
    pub steps: LinkedList<Note>,
    pub base: u64,
    pub loads: LinkedList<Load>,
}

/// The pen has the notes, the newest first, and the trace with which the life began.
pub struct View {
    pub pen: bool,
    pub sizes: Sizes,
    pub opened: LinkedList<Publishing>,
    pub notes: LinkedList<Note>,
    pub held: LinkedList<Part>,
}

/// How large the table is, and the words with which its life began.
#[derive(Drop)]
pub struct Opening {
    pub sizes: Sizes,
    pub words: Snapshot<Words>,
}
