//! Files that grow in place: a file of format 5 has a file of format 4 at its beginning, and may go on after it.
//!
//! `Front` is a device that shows that beginning alone, so all that is said of a file of format 4 holds of it. `raise` makes the
//! beginning longer by writes that leave, at each moment, the same set with as many slots as before or with all of the new ones.
#![tactic(auto)]

mod front;
mod head;
pub mod laws;
mod next;
mod raising;
mod tally;

pub use front::Front;
pub use head::{HeadFault, slots_of};
pub use next::next_count;
pub use raising::{RaiseFault, raise};
