//! What a service knows of itself.

/// What came of a room that was to be cleared.
#[derive(Clone, Copy, Debug, Default, PartialEq, Eq)]
pub enum Cleared {
    /// So many keys were removed, and it has no other that it had then.
    Removed(usize),
    /// Another room is being cleared.
    #[default]
    Busy,
    /// The service stopped or halted, or had no memory, after so many keys were removed.
    Stopped(usize),
}

/// What a service knows of itself at one moment.
#[derive(Clone, Copy, Debug, Default, PartialEq, Eq)]
pub struct Figures {
    /// Its version.
    pub major: usize,
    pub minor: usize,
    /// The number of its process.
    pub process: usize,
    /// A number that is another one at each start.
    pub run: usize,
    /// For how many seconds it has run.
    pub seconds: usize,
    /// Whether a client may end it.
    pub stoppable: bool,
    /// How many clients are connected, how many may be at once, and how many have been.
    pub clients: usize,
    pub most_clients: usize,
    pub sessions: usize,
    /// How many requests were answered, and how many in a second lately.
    pub answered: usize,
    pub rate: usize,
    /// Within how many microseconds half of the replies were given, and 99 of 100.
    pub median_us: usize,
    pub p99_us: usize,
    /// How many of these added a key, removed one, looked one up, and found no slot free.
    pub adds: usize,
    pub removes: usize,
    pub lookups: usize,
    pub full: usize,
    /// The number of its file's format.
    pub format: usize,
    pub slots: usize,
    /// How many bytes of it hold members and marks, and how many its slots have.
    pub used_bytes: usize,
    pub most_bytes: usize,
    pub members: usize,
    /// How many slots hold marks, which say what the file is for and are no members.
    pub marks: usize,
    pub buckets: usize,
    pub passes: usize,
    pub loops: usize,
    /// What came of the room that its client wanted cleared.
    pub cleared: Cleared,
}
