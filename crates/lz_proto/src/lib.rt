//! Request lines, replies and sessions.
//!
//! A session reads lines, asks a service what they ask for, and writes a reply to each before the next is asked.
//! `parse` says what one line asks for, `Lines` cuts a text that comes in pieces into lines, and `session` does the
//! whole over a reader and a writer. Each is exact: it gives what the definitions under `specs/` say.
#![tactic(auto)]

mod conversation;
mod end;
mod fault;
mod item;
pub mod laws;
mod limits;
mod line;
mod lines;
mod reply;
mod request;
mod service;

pub use conversation::{receive, send, session};
pub use end::{End, end_after};
pub use fault::{Bad, SessionFault};
pub use item::Item;
pub use limits::{MOST_KEPT, MOST_LINE, MOST_PIECE};
pub use line::{parse, without_return};
pub use lines::Lines;
pub use reply::{Reply, bad_text, reply_text};
pub use request::Request;
pub use service::Service;
