//! Whether each key of a list stands there once.
ghost use Rattle.std.specs.Prelude.{◌≡◌, ◌↔◌, IfOk, IsTrue, filter_map, nat_eq};
ghost use Rattle.std.specs.List.{IsDistinct};
ghost use Rattle.std.specs.List.Sorted.{IsStrictlyIncreasing};

use crate::places::Keyed;
use std::alloc::{AllocError, Global};

/// Whether no two of these items have one key. It sorts a copy of their keys, of 8 bytes each. Over many that is quicker than a table,
/// which is read all over memory.
pub fn has_each_key_once<T: Keyed>(alloc: Global, items: &[T]) -> Result<bool, AllocError>
    ensures { IfOk result (λ once. IsTrue once ↔ IsDistinct nat_eq (filter_map T.key items.now)) }
{
    let mut ranks = ranks_of(alloc, items)?;
    ranks.sort_unstable();
    Ok(is_rising(&ranks))
}

// The ranks of the items' keys, in their order.
fn ranks_of<T: Keyed>(alloc: Global, items: &[T]) -> Result<Vec<u64>, AllocError>
    ensures { IfOk result (λ ranks. ranks.items ≡ filter_map T.key items.now) }
{
    let mut ranks = Vec::new(alloc);
    for item in items {
        if let Some(rank) = item.keyed() {
            ranks.push(rank)?;
        }
    }
    Ok(ranks)
}

// Whether each number is above the one before it.
fn is_rising(numbers: &[u64]) -> bool
    ensures { IsTrue result ↔ IsStrictlyIncreasing numbers.now }
{
    for index in 1..numbers.len() {
        if numbers[index] <= numbers[index - 1] {
            return false;
        }
    }
    true
}
