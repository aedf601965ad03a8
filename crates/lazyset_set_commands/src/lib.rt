//! What each command of the program does, over any reader, writer and disk. Those that need no set in memory stand in
//! `lazyset_file_commands`, and are handed on here.
#![tactic(auto)]

mod found;
mod looking;
mod marks;
mod running;
mod serving;
mod sorting;

pub use lazyset_file_commands::{
    Lines, MOST_JUDGED, Shelf, Shown, Standing, Status, ask_shape_on, check_of_on, copy_on,
    format_number, grow_on, judge_on, make_keys_on, make_on, rehearse_on, renew_on, survey_on,
    tell, torn_slots,
};
pub use looking::{Heed, NoHeed};
pub use lz_serve::{Listener, ServeOptions};
pub use marks::{Wanted, serve_kept_on};
pub use running::run_on;
pub use serving::{Place, serve_on};
