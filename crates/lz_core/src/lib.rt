//! Plays of the machine of events.
//!
//! A world is a yard over a device in memory, with a call for each of its actors. What it plays is said in words of runs, so
//! the main theorem holds of it. What it stands on of the machine is passed on.
#![tactic(auto)]

mod disks;
mod open_calls;
mod play;
mod reopening;
mod shown;
mod world;

pub use lz_machine::{
    Actor, Course, Event, Kind, LockPhase, Outcome, Progress, Reply, Sequence, laws,
};
pub use lz_yard::{Caller, Yard};
pub use play::Step;
pub use world::{ACTORS, PlayFault, Turned, World};
