//! The first key of a list that stands there again.
ghost use Rattle.std.specs.Prelude.{IfOk, MatchOption, nat_eq};
ghost use Rattle.std.specs.List.{IsDistinct};
ghost use Rattle.lazyset_file_commands.specs.Lists.{IsFirstAgain};

use lz_judge::{Places, has_each_key_once};
use lz_slot::Key;
use std::alloc::{AllocError, Global};

/// The index of the first key that stands above it already, if one does.
pub(crate) fn first_again(alloc: Global, keys: &[Key]) -> Result<Option<usize>, AllocError>
    ensures { IfOk result (λ first. MatchOption first (IsDistinct nat_eq keys.now) (IsFirstAgain keys.now)) }
{
    if has_each_key_once(alloc, keys)? {
        return Ok(None);
    }
    let mut above = Places::new(alloc);
    for index in 0..keys.len() {
        if above.find(&keys[..index], keys[index].rank()).is_some() {
            return Ok(Some(index));
        }
        above.add(&keys[..index + 1])?;
    }
    Ok(None)
}
