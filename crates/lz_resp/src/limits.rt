//! The limits of frames. Contracts and definitions take the same numbers from `specs/Limits.antt`.

/// The most bytes of an argument.
pub const MOST_ARGUMENT: usize = 512;

/// The most arguments of a frame.
pub const MOST_ARGUMENTS: usize = 8_192;

/// The most bytes of a frame.
pub const MOST_FRAME: usize = 65_536;

/// How many keys a page has at most, as far as a frame says and where it says nothing.
pub const MOST_LISTED: u64 = 256;

pub(crate) const FEW_LISTED: u64 = 10;

/// The most bytes of a value, which isn't kept.
pub const MOST_VALUE: usize = 64;

/// The fewest and the most bytes of a secret: a block of SHA-256.
pub const FEWEST_SECRET: usize = 16;

pub const MOST_SECRET: usize = 64;
