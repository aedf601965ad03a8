//! What a line comes to.
use crate::fault::Bad;
use crate::request::Request;

/// What a line asks for, or its fault.
#[derive(Clone, Copy, Debug, PartialEq, Eq)]
pub enum Item {
    Asks(Request),
    Faulty(Bad),
}
