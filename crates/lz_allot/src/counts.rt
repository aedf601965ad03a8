//! How the slots are used.

/// How many slots are free, taken and in limbo.
#[derive(Clone, Copy, Debug, PartialEq, Eq)]
pub struct Counts {
    pub free: usize,
    pub taken: usize,
    pub limbo: usize,
}
