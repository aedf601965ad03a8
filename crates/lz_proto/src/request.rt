//! What a line can ask for.
use lz_slot::Key;

/// What a line asks for.
#[derive(Clone, Copy, Debug, PartialEq, Eq)]
pub enum Request {
    Add(Key),
    Remove(Key),
    Has(Key),
    /// Ends the session, with no reply.
    Quit,
}
