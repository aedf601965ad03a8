//! The bits beside a next link.

/// The bits of a link word.
#[derive(Clone, Copy, Debug, PartialEq, Eq)]
pub struct Flags {
    /// The node's key is no member any more.
    pub mark: bool,
    /// The node's adding is durable.
    pub add_settled: bool,
    /// The node's removal is durable.
    pub remove_settled: bool,
}
