//! Secrets that are hashed before texts.
ghost use Rattle.std.specs.Prelude.{◌≡◌, ◌↔◌, IfSome, IsTrue, None};
ghost use Rattle.sha2.specs.Hashers.{Holds256};
ghost use Rattle.lz_resp.specs.Keys.{IsSecret, block_of, secret_number};

use crate::limits::{FEWEST_SECRET, MOST_SECRET};
use byteorder::{BigEndian, ByteOrder};
use sha2::{Digest, Sha256};
use std::alloc::AllocError;
use std::fmt;
use std::marker::Model;

/// A secret without which nobody can tell the key of a text. It is hashed before each of them, padded with zeros to a block of SHA-256. Contracts
/// see it as that block.
#[derive(Drop)]
pub struct Secret {
    /// One that has taken the block.
    hasher: Sha256,
    block: [u8; MOST_SECRET],
}

impl Model for Secret {
    ghost use Rattle.std.specs.Prelude.{ℕ, List};
    ghost use Rattle.sha2.specs.Hashers.{Holds256};

    ghost Value = { List ℕ };

    ghost view = { λ s. s.block };

    ghost invariant = { λ s. Holds256 s.hasher s.block };
}

impl Secret {
    /// The secret of these bytes: 16 to 64, of which the last is no zero, since zeros after it would change nothing.
    pub fn new(bytes: &[u8]) -> Option<Secret>
        ensures some { IfSome result (λ secret. IsSecret bytes.now × (secret ≡ block_of bytes.now)) }
        ensures none { result ≡ None → IsSecret bytes.now → ⊥ }
    {
        if !is_secret(bytes) {
            return None;
        }
        let mut block = [0; MOST_SECRET];
        block[..bytes.len()].copy_from_slice(bytes);
        let mut hasher = Sha256::new();
        hasher.update(block);
        Some(Secret { hasher, block })
    }

    /// A number that tells it from another: the first eight bytes of SHA-256 over its block alone, which no text has, as a big-endian number.
    pub fn number(&self) -> u64
        ensures { result ≡ secret_number self.now }
    {
        BigEndian::read_u64(Sha256::digest(self.block).as_slice())
    }

    /// A hasher that has taken its block.
    pub(crate) fn hasher(&self) -> Sha256
        ensures { Holds256 result self.now }
    {
        match self.hasher.clone() {
            Ok(hasher) => hasher,
            Err(AllocError) => unreachable!(),
        }
    }
}

// Whether these bytes may be a secret.
fn is_secret(bytes: &[u8]) -> bool
    ensures { IsTrue result ↔ IsSecret bytes.now }
{
    let count = bytes.len();
    FEWEST_SECRET <= count && count <= MOST_SECRET && bytes[count - 1] != 0
}

/// A secret is shown to nobody.
impl fmt::Debug for Secret {
    fn fmt<W: fmt::Write>(&self, f: &mut fmt::Formatter<W>) -> fmt::Result {
        f.write_str("Secret { ... }")
    }
}
