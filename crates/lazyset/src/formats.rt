//! Which format a file gets where none is named.
ghost use Rattle.std.specs.Prelude.{◌≡◌, ◌≤◌};
ghost use Rattle.lz_slot.specs.Limits.{last_room, most_slots, most_slots_of};
ghost use Rattle.lz_slot.specs.Rooms.{last_room_of};

use lz_slot::{Format, LAST_ROOM};

/// The format of a file of so many slots: 2 where it has room for them, since more programs open it.
pub fn format_for(slots: u64) -> Format
    ensures rooms { last_room_of result ≡ last_room }
    ensures fits { slots ≤ most_slots → slots ≤ most_slots_of result }
{
    if slots <= Format::Two.most_slots() {
        Format::Two
    } else {
        Format::Four
    }
}

/// This format, where it has all rooms and room for so many slots; else that of a file of so many slots.
pub fn kept_format(format: Format, slots: u64) -> Format
    ensures rooms { last_room_of result ≡ last_room }
    ensures fits { slots ≤ most_slots → slots ≤ most_slots_of result }
    ensures kept { last_room_of format ≡ last_room → slots ≤ most_slots_of format → result ≡ format }
{
    if format.last_room() == LAST_ROOM && slots <= format.most_slots() {
        format
    } else {
        format_for(slots)
    }
}

/// The format with this number, if there is one.
pub fn format_numbered(number: u64) -> Option<Format> {
    match number {
        1 => Some(Format::One),
        2 => Some(Format::Two),
        3 => Some(Format::Three),
        4 => Some(Format::Four),
        _ => None,
    }
}
