//! Words that threads share, walks over them, and what walkers may rely on.
//!
//! A table is a row of buckets, and each bucket a lazy list (Herlihy and Shavit, The Art of Multiprocessor Programming):
//! sorted nodes, each with a key, a next link, a lock and a mark. A node is linked, marked, and taken out;
//! after its marking its next link stays, so a walk that stands on it finds its way. What walkers see is decided by the
//! trace, the list of publishings.
#![tactic(auto)]

mod flags;
pub mod laws;
mod layout;
mod link;
mod list;
mod locks;
mod order;
mod pins;
mod place;
mod publishing;
mod table;
mod walk;
mod word;

pub use flags::Flags;
pub use layout::Sizes;
pub use link::{LinkWord, link_of, next_to};
pub use list::List;
pub use pins::{LAST_PIN, next_pin};
pub use place::Place;
pub use publishing::{Change, Publishing};
pub use table::{Words, word_of};
pub use walk::{Hop, Look, Met, Walk};
pub use word::Word;
