//! The limits of a history. Contracts and definitions take the same numbers from `specs/Limits.antt`.

/// The most calls of a history.
pub const MOST_CALLS: usize = 100_000;

/// The most bytes of a history's text.
pub const MOST_BYTES: usize = 4_194_304;

/// The largest place of a point.
pub const MAX_PLACE: u64 = 999_999_999_999;

/// The faults of an open count from 1 up to this one.
pub(crate) const MOST_FAULTS: u64 = 8;
