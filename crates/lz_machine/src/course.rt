//! What becomes of an event.
use crate::event::Outcome;

/// An event isn't played, and has this outcome; or it finds no sync left, and the vault dies; or it is played.
#[derive(Clone, Copy, Debug, PartialEq, Eq)]
pub enum Course {
    Refused(Outcome),
    Dies,
    Plays,
}
