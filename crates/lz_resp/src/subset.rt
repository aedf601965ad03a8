//! Subsets and the keys of their members.
ghost use Rattle.std.specs.Prelude.{◌≡◌, ◌≤◌, option_map};
ghost use Rattle.lz_slot.specs.Limits.{largest_number};
ghost use Rattle.lz_resp.specs.Keys.{IsThere, prefix_of, subset_of, key_of, text_number};

use crate::secret::Secret;
use byteorder::{BigEndian, ByteOrder};
use lz_slot::{Key, MAX_NUMBER, read_number};
use sha2::{Digest, Sha256};

/// A part of the set, by what names it.
#[derive(Clone, Copy)]
pub(crate) enum Subset<'t> {
    Room(u8),
    // of room 0
    Text(Option<&'static Secret>, &'t [u8]),
}

impl<'t> Subset<'t> {
    /// The key of a member, if it is one.
    #[inline(always)]
    pub(crate) fn key_of(self, member: &[u8]) -> Option<Key>
        requires { IsThere (subset_of self) }
        ensures { result ≡ key_of (subset_of self.entry) member.now }
    {
        match self {
            Subset::Room(room) => Key::in_room(room, read_number(member, 0, MAX_NUMBER)?),
            Subset::Text(secret, name) => Key::new(text_number(secret, name, member)),
        }
    }
}

/// The number in room 0 that stands for a member of the set of this name, both of any bytes: the first eight bytes of SHA-256 over the secret's
/// block, if there is a secret, the name's length (in eight bytes), the name and the member, as a big-endian number, modulo 10^18.
#[inline(never)]
pub fn text_number(secret: Option<&Secret>, name: &[u8], member: &[u8]) -> u64
    ensures number { result ≡ text_number (prefix_of (option_map (λ block. block.now) secret.entry)) name.now member.now }
    ensures range { result ≤ largest_number }
{
    let mut hasher = match secret {
        Some(secret) => secret.hasher(),
        None => Sha256::new(),
    };
    hasher.update((name.len() as u64).to_be_bytes());
    hasher.update(name);
    hasher.update(member);
    let digest = hasher.finalize();
    BigEndian::read_u64(digest.as_slice()) % (MAX_NUMBER + 1)
}
