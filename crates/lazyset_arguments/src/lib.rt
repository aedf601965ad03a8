//! The words of the command line: which ones there are, and what they ask for.
#![tactic(auto)]

mod command;
mod given;
mod ids;
mod lease;
mod misfit;
mod period;
mod refusal;
mod request;
mod service;
mod sheets;
mod values;
mod word;
mod words;

pub use command::{MAJOR, MINOR};
pub use period::Period;
pub use refusal::{Refusal, too_many_buckets};
pub use request::{New, Request, SetOfTexts, Wish, read};
pub use service::{Chosen, Service};
