//! How subsets are named.
ghost use Rattle.std.specs.Prelude.{◌≡◌, ◌≤◌, IfSome, option_map};
ghost use Rattle.lz_slot.specs.Limits.{last_room};
ghost use Rattle.lz_resp.specs.Keys.{IsThere, IsRoom, selected_first, subset_of, of_name, room_of, unnamed};

use crate::digits::digit_of;
use crate::secret::Secret;
use crate::subset::Subset;
use lz_slot::{LAST_ROOM, read_number};

/// How the names of subsets and their members are read.
#[derive(Clone, Copy, Debug)]
pub enum Naming {
    /// A name is a room, and a member the number of a key there.
    Rooms,
    /// Both are any bytes, whose digest is the number of a key in room 0, of a secret where there is one. Two texts may have the same key.
    Texts(Option<&'static Secret>),
}

/// What a command is about that names no subset.
#[derive(Clone, Copy, Debug)]
pub(crate) enum Selected {
    Room(u8),
    // where names are texts, the subset whose name has no bytes
    Nameless(Option<&'static Secret>),
}

impl Selected {
    /// What is selected before any command.
    pub(crate) fn at_first(naming: Naming) -> Selected
        ensures selected { result ≡ selected_first naming }
        ensures range { IsRoom result }
    {
        match naming {
            Naming::Rooms => Selected::Room(0),
            Naming::Texts(secret) => Selected::Nameless(secret),
        }
    }

    /// The subset of a command that names none.
    pub(crate) fn unnamed(self) -> Subset<'static>
        requires { IsRoom self }
        ensures subset { subset_of result ≡ unnamed self }
        ensures range { IsThere (subset_of result) }
    {
        match self {
            Selected::Room(room) => Subset::Room(room),
            Selected::Nameless(secret) => Subset::Text(secret, b""),
        }
    }

    /// The subset of this name.
    pub(crate) fn of_name<'t>(self, name: &'t [u8]) -> Option<Subset<'t>>
        ensures subset { option_map subset_of result ≡ of_name self name.now }
        ensures range { IfSome result (λ subset. IsThere (subset_of subset)) }
    {
        match self {
            Selected::Room(_) => Some(Subset::Room(room_of(name)?)),
            Selected::Nameless(secret) => Some(Subset::Text(secret, name)),
        }
    }
}

/// The room that an argument names.
pub(crate) fn room_of(name: &[u8]) -> Option<u8>
    ensures room { result ≡ room_of name.now }
    ensures range { IfSome result (λ room. room ≤ last_room) }
{
    if let [digit] = name {
        return digit_of(*digit);
    }
    let room = read_number(name, 0, u64::from(LAST_ROOM))?;
    Some(room as u8)
}
