//! Places of the list.
use lz_slot::Slot;

/// What has a next link: a bucket's head or a node.
#[derive(Clone, Copy, Debug, PartialEq, Eq)]
pub enum Place {
    Bucket(usize),
    Node(Slot),
}
