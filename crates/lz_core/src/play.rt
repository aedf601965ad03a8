//! What a play is made of.
use lz_disk::Pick;
use lz_slot::Command;

/// A step of a play.
#[derive(Clone, Copy, Debug, PartialEq, Eq)]
pub enum Step {
    Call(usize, Command),
    Turn(usize),
    /// The next device call fails.
    Trip,
    Stop,
    Crash(Pick),
    Open,
}
