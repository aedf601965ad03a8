//! Keys that are forgotten after a time: the commands of a client of texts as requests for keys of rooms, which are epochs by turns.
//!
//! A `Session` stands between a client and a service of numbers. A key is claimed in the room of the newest epoch, once no older room that is
//! still remembered has it; it is looked up in all of these, and removed from each, the newest first. `Turns` says which rooms these are, for all
//! sessions to see, and lets an epoch end only once no command of it is under way. Each is exact: it does what the definitions under `specs/` say.
#![tactic(auto)]

mod answers;
mod asking;
mod commands;
mod keeper;
mod live;
mod marks;
mod past;
mod reading;
mod session;
mod turns;
mod wanted;

pub use commands::MOST_SECONDS;
pub use keeper::Keeper;
pub use live::{EPOCH_ROOMS, Live, MOST_EPOCHS};
pub use marks::{epoch_of, is_period_mark, period_mark};
pub use past::Past;
pub use session::{Next, Session};
pub use turns::Turns;
pub use wanted::{Reading, Wanted};
