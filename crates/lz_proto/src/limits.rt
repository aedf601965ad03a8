//! The limits of lines. Contracts and definitions take the same numbers from `specs/Limits.antt`.

/// The most bytes of a line, less its carriage return: a longer one is no request.
pub const MOST_LINE: usize = 64;

/// The most bytes of an unfinished line that are kept: further ones can't change what it comes to.
pub const MOST_KEPT: usize = 66;

/// The most bytes that one read takes.
pub const MOST_PIECE: usize = 4_096;
