//! The rooms of epochs.
ghost use Rattle.std.specs.Prelude.{◌≡◌, ◌+◌, ◌-◌, ◌%◌, ◌<◌, ◌≤◌};
ghost use Rattle.lz_forget.specs.Lives.{IsLive, room_at};

/// How many rooms epochs have by turns.
pub const EPOCH_ROOMS: u8 = 14;

/// How many epochs are remembered at most. Of the other rooms one is swept, and one waits for the next epoch.
pub const MOST_EPOCHS: u8 = 12;

/// The rooms whose keys are remembered: that of the newest epoch, and so many in all, each that of the epoch before. The newest takes keys, unless
/// there was no slot for the mark of the next.
#[derive(Clone, Copy, Debug, PartialEq, Eq)]
pub struct Live {
    pub newest: u8,
    pub count: u8,
    pub takes: bool,
}

impl Live {
    /// The room of the epoch of this age. The newest one's is 0.
    pub fn room(self, age: u8) -> u8
        requires live { IsLive self }
        requires age { age < self.count }
        ensures room { result ≡ room_at self age }
        ensures range { result < 14 }
    {
        before(self.newest, age)
    }
}

/// The room of the epoch that began so many before the one of this room, up to as many as there are rooms.
pub(crate) fn before(room: u8, age: u8) -> u8
    ensures room { room < 14 → age ≤ 14 → result ≡ (room + 14 - age) % 14 }
    ensures range { result < 14 }
{
    (room % EPOCH_ROOMS + EPOCH_ROOMS - age.min(EPOCH_ROOMS)) % EPOCH_ROOMS
}

/// The room of the epoch after the one of this room.
pub(crate) fn after(room: u8) -> u8
    ensures room { room < 14 → result ≡ (room + 1) % 14 }
    ensures range { result < 14 }
{
    (room % EPOCH_ROOMS + 1) % EPOCH_ROOMS
}
