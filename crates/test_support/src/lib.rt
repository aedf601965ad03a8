//! What the tests of several crates share: files on disks in memory, the passes of a set, and devices, readers and writers that
//! fail.
#![tactic(auto)]

mod faults;
mod files;
mod passes;
mod pipes;

pub use faults::{ENDS, FAILINGS, Failing, end_life, set_failing};
pub use files::{keys_in, made};
pub use passes::last_pass;
pub use pipes::{Narrow, Slow};
