//! Words that walkers load while one pen stores them, without a lock.
//!
//! A board has the words of a lazy list in one table of atomics. One seat, the pen, stores head, link, key and halt words, and
//! notes each event that it stores; it is kept under a lock. Up to as many passes as there are pin words load them meanwhile,
//! and wait for nobody: a glance is the wait-free `contains` of the lazy list (Heller, Herlihy, Luchangco, Moir, Scherer and
//! Shavit; Herlihy and Shavit, The Art of Multiprocessor Programming). A pass stores its pin word when it goes inside and
//! when it goes outside, as in the epochs of Fraser, so that the pen can tell when no walker stands in a slot any more.
//!
//! Promised: between any two steps the words are those after the pen's trace, which is lawful, and what a pass has seen is a
//! beginning of it (`laws`); each load shows a word of that trace, no older than what the pass has seen; what a glance
//! answers was so at some trace between its pin and its end.
#![tactic(auto)]

mod answer;
mod board;
mod glancing;
mod holding;
pub mod laws;
mod listing;
mod loading;
mod moment;
mod page;
mod pass;
mod rule;
mod view;

pub use answer::{Glance, GlanceFault};
pub use board::{Board, Pen};
pub use moment::Moment;
pub use page::{ListFault, Page};
pub use pass::Pass;
pub use rule::{Enters, Hand, Loads, Looks, Notes, Published, Saws, Shifts};
pub use view::{Load, Note, Opening, Part, View, What};
