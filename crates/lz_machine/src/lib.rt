//! The machine of events, and its laws.
//!
//! The table under `specs/` says of each event what it needs, which device call it makes, what it changes and what it
//! answers; runs are made of these events, of device failures, stops, crashes and opens. The main theorem is said over every
//! such run. Of code there is only what the definitions speak of.
#![tactic(auto)]

mod actor;
mod caller;
mod course;
mod event;
mod kind;
pub mod laws;

pub use actor::{Actor, LockPhase};
pub use caller::{Progress, Sequence};
pub use course::Course;
pub use event::{Event, Outcome, Reply};
pub use kind::Kind;
