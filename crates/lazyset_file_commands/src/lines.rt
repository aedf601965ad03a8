//! What the lines of a list name.
ghost use Rattle.std.specs.Prelude.{◌≡◌, ◌≤◌, ◌<◌, ℕ, List, IfNone, IfSome, length};
ghost use Rattle.lazyset_file_commands.specs.Lists.{NamesKey, keys, named_by};

use crate::texts::text_key;
use lz_proto::without_return;
use lz_resp::{MOST_ARGUMENT, Secret};
use lz_slot::{Format, Key, read_key};

// The most bytes of a line with a key: those of a room, a colon, a number and a carriage return.
const MOST_SPELLED: usize = 22;

/// What each line of a list names.
#[derive(Clone, Copy)]
pub enum Lines<'n> {
    /// A key, which no line above names.
    Keys,
    /// A text, which may come again. Its key is that of a member of the set with this name, for a service of texts under this secret, or under none.
    Texts(Option<&'n Secret>, &'n [u8]),
}

impl Lines<'_> {
    /// The most bytes of a line.
    pub(crate) fn most_bytes(self, format: Format) -> usize
        ensures { (line : List ℕ) (k : ℕ) → result < length line → ¬ NamesKey (named_by format self.entry) line k }
    {
        match self {
            Lines::Keys => MOST_SPELLED,
            Lines::Texts(..) => MOST_ARGUMENT,
        }
    }

    /// The key that a line names, in a file of this format.
    pub(crate) fn key_on(self, line: &[u8], format: Format) -> Option<Key>
        ensures some { IfSome result (λ key. NamesKey (named_by format self.entry) line.now key) }
        ensures none { IfNone result ((key : ℕ) → ¬ NamesKey (named_by format self.entry) line.now key) }
    {
        match self {
            Lines::Keys => spelled_on(line, format),
            Lines::Texts(..) if line.len() > MOST_ARGUMENT => None,
            Lines::Texts(secret, name) => text_key(secret, name, line),
        }
    }
}

// The key that is spelled on a line.
fn spelled_on(line: &[u8], format: Format) -> Option<Key>
    ensures some { IfSome result (λ key. NamesKey (keys format) line.now key) }
    ensures none { IfNone result ((key : ℕ) → ¬ NamesKey (keys format) line.now key) }
{
    let Ok(key) = read_key(without_return(line)) else {
        return None;
    };
    if format.has_room_for(key) {
        Some(key)
    } else {
        None
    }
}
