//! How exchanges are told.

use lz_resp::{Form, Query, Scan, Text};

/// How the replies to requests are worded.
#[derive(Clone, Copy, Debug, PartialEq, Eq)]
pub enum Wording {
    /// A line for each.
    Line,
    /// A frame for all.
    Frame(Form),
}

/// What is told of an exchange, once those before it were told.
#[derive(Drop, Debug)]
pub enum Turn {
    /// The replies to so many requests.
    Asks(Wording, usize),
    /// A text. Nothing was asked.
    Says(Text),
    /// A page.
    Lists(Scan),
    /// What is told of the service itself.
    Tells(Query),
    /// The last text.
    Ends(Text),
}
