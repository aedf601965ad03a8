//! Free, taken and limbo slots: a slot that was retired is free again once every pass has left.
#![tactic(auto)]

mod allot;
mod counts;
mod free;
mod kind;
mod row;
mod sight;

pub use allot::Allot;
pub use counts::Counts;
pub use row::Row;
pub use sight::Sight;
