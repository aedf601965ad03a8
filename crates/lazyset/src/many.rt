//! A count with its noun, in words.
use std::fmt;

/// So many of what a noun names.
#[derive(Clone, Copy)]
pub struct Many {
    count: usize,
    one: &'static str,
    more: &'static str,
}

impl Many {
    /// With what stands beside 1, and beside any other number.
    pub fn new(count: usize, one: &'static str, more: &'static str) -> Many {
        Many { count, one, more }
    }
}

impl fmt::Display for Many {
    fn fmt<W: fmt::Write>(&self, f: &mut fmt::Formatter<W>) -> fmt::Result {
        let count = self.count;
        let noun = if count == 1 { self.one } else { self.more };
        write!(f, "{count} {noun}")
    }
}
