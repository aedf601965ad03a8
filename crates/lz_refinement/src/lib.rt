//! What lies under the lock of a set: the yard, and the pen of its board.
//!
//! Each hold of the lock plays one event of a pass's call and notes it. Proved: the pen's notes are read as a run of the machine
//! whose last state the yard has, so the laws of lz_machine hold of it; a pass's own loads, made without the lock, stand in that
//! run where the pass saw their words. In a set of one pass each answer is a plain set's, and what a crash leaves is
//! that set after the calls by then (`laws`).
#![tactic(auto)]

mod history;
pub mod laws;
mod locked;
mod moves;
mod named;
mod playing;

pub use history::answers_are_told;
pub use locked::Locked;
pub use moves::{load_next, walk_on};
pub use named::Named;
pub use playing::Turn;
