//! The set that threads share.
//!
//! A set is opened over a device, and hands out as many passes as were asked for. A thread with a pass of its own calls `add`,
//! `remove` and `has`; the calls of several passes overlap. Each walks along the list by loads that take no lock, and every
//! other event of it is one hold of the lock, which is kept from one to the next where no gate watches. A sync waits until all
//! calls that run have come to one of theirs, and covers what they wrote; one whose slot is covered calls no device, and is played
//! at once.
//! A thread that is to have many calls under way plays each as a value, `Underway`: `begin`, `go_on` from one stage to the next,
//! `sync` where the call stands before one, and `answer`. By one `HeldLock` (`keep`) it keeps the lock from one of these to the next.
//! `glance` looks up without any lock, and `list` tells the members page by page. A program's work stands in a function
//! generic in the set's name, which is called with std's `Brand`:
//!
//! ```text
//! let blank = Set::open(alloc, disk, NoGate, 1, 8)?;
//! // ghosts-work g a = record { board = a.blank.board; first = g.D.Disk.device a.blank.disk; format = a.blank.yard.vault.format }
//! work::<D, Brand, R>(rt, blank)
//!
//! fn work<D: Disk, N: Named, R: Wait>(rt: &R, blank: Blank<D, NoGate>)
//!     requires { MayBeNamed D.device N.board N.first N.format blank }
//! {
//!     let (set, passes) = blank.start::<N>();    // each of the passes may call: All (MayCall N.board) passes.items
//!     ..
//!     set.add(rt, &mut pass, key)                // requires MayCall N.board pass, which holds again afterwards
//! }
//! ```
//!
//! Proved: what threads do is a run of the machine, each time the lock is got (`lz_refinement::Locked`), and each answer is what
//! the table of answers promises its thread, in terms of what its pass had seen before the call and has seen after it. The lives of
//! sets that are opened one after the other are a chain (`laws`).
#![tactic(auto)]

mod blank;
mod closing;
mod fault;
mod gate;
mod group_commit;
mod held_lock;
pub mod laws;
mod set;
mod underway;

pub use blank::Blank;
pub use fault::Fault;
pub use gate::{NoGate, StepGate};
pub use held_lock::HeldLock;
pub use lz_board::{Glance, GlanceFault, ListFault, Page, Pass};
pub use lz_refinement::Named;
pub use set::Set;
pub use underway::{Blocked, Underway};
