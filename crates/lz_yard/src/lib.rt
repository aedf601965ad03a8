//! The yard, which callers share, and the order of one command's events.
//!
//! Callers play their commands one event at a time, each event under one hold of the yard. Each event is proved to be its line
//! of the machine's table, over any device. A `Caller` names the next event of its command, and takes what the event answered.
#![tactic(auto)]

mod filling;
mod hold;
mod needs;
mod operation;
mod order;
mod parts;
mod plays;
mod telling;
mod told;
mod yard;
mod yard_disk;

pub use operation::Caller;
pub use told::{Stepped, Told};
pub use yard::Yard;
