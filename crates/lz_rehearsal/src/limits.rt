//! The limits of a script. Contracts and definitions take the same numbers from `specs/Limits.antt`.

/// The most turns that one line plays.
pub const MOST_TURNS: u64 = 1_000_000;

/// The most bytes that a crash in part keeps by its line.
pub const MOST_KEPT: u64 = 9_999;

/// The most bytes of a line, without its line feed.
pub const MOST_LENGTH: usize = 64;

/// The most lines of a script.
pub const MOST_LINES: usize = 100_000;

// No more of an input is read: a longer text has more lines, or a longer line, than a script has.
pub(crate) const MOST_BYTES: u64 = 6_500_065;
