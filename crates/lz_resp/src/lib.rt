//! The frames and replies of Redis's protocol, RESP2.
//!
//! `Frames` cuts a text that comes in pieces into frames, and gives what each asks for; `push_reply` tells the reply to it, by
//! the replies to its requests, `Scan::text` that to a page that was asked for, and `Query::text` that to what is asked of the service
//! itself. `read_page` reads such a page, for a client. Each is exact: it gives what the definitions under `specs/` say.
#![tactic(auto)]

mod arguments;
mod asking;
mod clearing;
mod command;
mod digits;
mod errors;
mod fault;
mod figures;
mod form;
mod frames;
mod greeting;
mod info;
mod item;
pub mod laws;
mod limits;
mod naming;
mod page;
mod query;
mod reading;
mod reply;
mod scan;
mod scanning;
mod secret;
mod state;
mod subcommand;
mod subset;
mod text;
mod three;
mod transactions;

pub use arguments::argument;
pub use clearing::{Awaits, Clearing};
pub use command::is_name;
pub use fault::{Fault, Stop};
pub use figures::{Cleared, Figures};
pub use form::Form;
pub use frames::Frames;
pub use item::{Item, Requests};
pub use limits::{
    FEWEST_SECRET, MOST_ARGUMENT, MOST_ARGUMENTS, MOST_FRAME, MOST_LISTED, MOST_SECRET, MOST_VALUE,
};
pub use naming::Naming;
pub use page::{Page, page_request, push_plain, read_page};
pub use query::{Query, Sections};
pub use reading::{read_argument, read_first, read_line};
pub use reply::{fault_text, has_halted, push_reply};
pub use scan::{Scan, push_decimal};
pub use secret::Secret;
pub use state::State;
pub use subset::text_number;
pub use text::{Text, push_number};
pub use transactions::item_in;
