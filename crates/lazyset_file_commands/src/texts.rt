//! Texts as keys, for a service of texts.
ghost use Rattle.std.specs.Prelude.{◌≡◌, Some, option_map};
ghost use Rattle.lz_resp.specs.Keys.{prefix_of, secret_number, text_number};
ghost use Rattle.lazyset_file_commands.specs.Marks.{secret_mark};

use lz_resp::{Secret, text_number};
use lz_slot::Key;

/// The rank of the mark that keys are texts: number 1,000,000,000,000,000 of room 15.
pub const TEXTS_MARK: u64 = 15_001_000_000_000_000_000;

/// The rank of the first mark of a secret: number 2,000,000,000,000,000 of room 15.
pub const FIRST_SECRET_MARK: u64 = 15_002_000_000_000_000_000;

/// The rank of the last one that may be.
pub const LAST_SECRET_MARK: u64 = 15_002_999_999_999_999_999;

// How many there may be.
const SECRET_MARKS: u64 = 1_000_000_000_000_000;

/// The mark that keys are texts under this secret. It tells the secret from most others, and tells nobody the secret.
pub fn secret_mark(secret: &Secret) -> Option<Key>
    ensures { result ≡ Some (secret_mark (secret_number secret.now)) }
{
    Key::of_rank(FIRST_SECRET_MARK + secret.number() % SECRET_MARKS)
}

/// The key that a service of texts under this secret, or under none, asks for where a client names this member of the set of this name.
pub(crate) fn text_key(secret: Option<&Secret>, name: &[u8], member: &[u8]) -> Option<Key>
    ensures { result ≡ Some (text_number (prefix_of (option_map (λ block. block.now) secret.entry)) name.now member.now) }
{
    Key::new(text_number(secret, name, member))
}
