//! The marks of a set that forgets: keys of the last room.
ghost use Rattle.std.specs.Prelude.{◌≡◌, ◌+◌, ◌*◌, ◌<◌, ◌≤◌, IfSome, Some};
ghost use Rattle.lz_forget.specs.Marks.{epoch_mark, epoch_of, period_mark};

use crate::live::EPOCH_ROOMS;
use lz_slot::Key;

/// The rank of the first mark of a period: number 3,000,000,000,000,000 of room 15.
const FIRST_PERIOD: u64 = 15_003_000_000_000_000_000;

/// The rank of the first mark of an epoch: number 4,000,000,000,000,000 of room 15.
const FIRST_EPOCH: u64 = 15_004_000_000_000_000_000;

/// Less than what a mark tells: seconds of a period, or milliseconds since 1970 of an epoch.
const TIMES: u64 = 10_000_000_000_000;

/// The mark that keys are forgotten after so many seconds, of which so many epochs are remembered.
pub fn period_mark(seconds: u64, epochs: u8) -> Option<Key>
    ensures { seconds < 10000000000000 → epochs < 100 → result ≡ Some (period_mark seconds epochs) }
{
    Key::of_rank(FIRST_PERIOD + u64::from(epochs) * TIMES + seconds.min(TIMES - 1))
}

/// Whether a key is the mark of some period.
pub fn is_period_mark(key: Key) -> bool {
    (FIRST_PERIOD..FIRST_EPOCH).contains(&key.rank())
}

/// The mark that the epoch of this room begins at this millisecond since 1970.
pub fn epoch_mark(room: u8, began: u64) -> Option<Key>
    ensures { began < 10000000000000 → result ≡ Some (epoch_mark room began) }
{
    Key::of_rank(FIRST_EPOCH + u64::from(room) * TIMES + began.min(TIMES - 1))
}

/// The room whose epoch this key marks, and the millisecond at which that begins.
pub fn epoch_of(key: Key) -> Option<(u8, u64)>
    ensures same { result ≡ epoch_of key }
    ensures range { IfSome result (λ p. p.0 < 14) }
{
    let value = key.rank().checked_sub(FIRST_EPOCH)?;
    let room = u8::try_from(value / TIMES).ok()?;
    if room < EPOCH_ROOMS {
        Some((room, value % TIMES))
    } else {
        None
    }
}
