//! The limits of the whole. Contracts and definitions take the same numbers from `specs/Limits.antt`.

/// The most slots of a file of any format: `Format::most_slots` gives those of one.
pub const MOST_SLOTS: u64 = 16_777_216;

/// The most buckets over which the keys of an open set are spread: `Format::most_buckets` gives those of one format.
pub const MOST_BUCKETS: usize = 1_048_576;

/// The most passes of an open set, so the most calls at once.
pub const MOST_PASSES: usize = 1_024;

/// The most actors of a history or a rehearsal: they count from 1 up to this one.
pub const MOST_ACTORS: u64 = 64;

/// The most slots of a rehearsal.
pub const MOST_REHEARSED: usize = 64;
