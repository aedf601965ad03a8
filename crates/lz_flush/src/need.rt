//! What an answer needs.

/// Whether a caller that rests on a node may answer at once, or only after a sync.
#[derive(Clone, Copy, Debug, PartialEq, Eq)]
pub enum Need {
    Now,
    Sync,
}
