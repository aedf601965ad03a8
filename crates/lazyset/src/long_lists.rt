//! Lists that are long, since a set has more members than its buckets serve well.
use std::fmt;

// From how many members in a list on a command takes long enough to be told.
const LONG_LIST: usize = 64;

/// The lists of a set are long, and would be short in so many buckets.
#[derive(Clone, Copy)]
pub struct LongLists {
    better: usize,
}

impl LongLists {
    /// Of a set of so many members in so many buckets, whose format allows so many, where its lists are long.
    pub fn of(members: usize, buckets: usize, most: usize) -> Option<LongLists> {
        if members.checked_div(buckets).unwrap_or(0) <= LONG_LIST {
            return None;
        }
        Some(LongLists {
            better: members.min(most),
        })
    }
}

impl fmt::Display for LongLists {
    fn fmt<W: fmt::Write>(&self, f: &mut fmt::Formatter<W>) -> fmt::Result {
        let better = self.better;
        write!(
            f,
            "long lists make commands slow: give it --buckets {better} at the next start"
        )
    }
}
