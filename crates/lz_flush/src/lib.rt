//! Which changes are durable, and which answers may be given.
//!
//! A writer takes a ticket when it has written a gate: once a later sync has succeeded the write is durable. Then the node's
//! flag is set, so that others who meet the node answer without a sync of their own.
#![tactic(auto)]

mod need;
mod settling;
mod ticket;

pub use need::Need;
pub use settling::{may_answer, settle};
pub use ticket::{Ticket, covered};
