//! The commands that need no set in memory: each reads or writes a file, a history or a script, over any reader, writer and disk. And
//! how every command ends: its status, and the lines that say why it was refused.
#![tactic(auto)]

mod again;
mod checking;
mod comparing;
mod copying;
mod counting;
mod growing;
mod judging;
pub mod laws;
mod lines;
mod list;
mod listing;
mod making;
mod refusal;
mod rehearsing;
mod renewing;
mod rewriting;
mod shown;
mod status;
mod telling;
mod texts;
mod torn;

pub use checking::survey_on;
pub use comparing::check_of_on;
pub use copying::{ask_shape_on, copy_on};
pub use counting::format_number;
pub use growing::{Shelf, Standing, grow_on};
pub use judging::{MOST_JUDGED, judge_on};
pub use lines::Lines;
pub use listing::make_keys_on;
pub use making::make_on;
pub use refusal::{refuse, send_line};
pub use rehearsing::rehearse_on;
pub use renewing::renew_on;
pub use rewriting::{RewriteFault, rewrite};
pub use shown::Shown;
pub use status::Status;
pub use telling::tell;
pub use texts::{FIRST_SECRET_MARK, LAST_SECRET_MARK, TEXTS_MARK, secret_mark};
pub use torn::torn_slots;
