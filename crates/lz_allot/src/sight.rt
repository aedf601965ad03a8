//! What was seen of a pass.

/// What was seen of a pass since a slot was retired.
#[derive(Clone, Copy, Debug, PartialEq, Eq)]
pub enum Sight {
    Unseen,
    /// It was inside, with this pin value.
    Inside(u64),
    Left,
}
