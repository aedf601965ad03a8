//! What a frame asks of the members of a room, or of all rooms.
ghost use Rattle.std.specs.Prelude.{◌≡◌, ◌≤◌, IfOk, Some, length, map};
ghost use Rattle.lz_slot.specs.Limits.{most_slots};
ghost use Rattle.lz_slot.specs.Numerals.{number_in};
ghost use Rattle.lz_resp.specs.Commands.{clear_of, no_texts, page_from, page_of, scan_all_of, scan_of};

use crate::arguments::{after, argument};
use crate::command::is_name;
use crate::errors::no_room;
use crate::item::Item;
use crate::limits::{FEW_LISTED, MOST_LISTED};
use crate::naming::{Selected, room_of};
use crate::query::Query;
use crate::scan::Scan;
use crate::text::error;
use lz_slot::{MOST_SLOTS, Slot, read_number};
use std::alloc::{AllocError, Global};

/// A page of the room that a frame names.
pub(crate) fn scan(
    alloc: Global,
    selected: Selected,
    arguments: &[&[u8]],
) -> Result<Item, AllocError>
    requires { 3 ≤ length arguments.now }
    ensures { IfOk result (λ item. item ≡ scan_of selected (map (λ argument. argument.now) arguments.now)) }
{
    let Selected::Room(_) = selected else {
        return no_texts(alloc);
    };
    let Some(room) = room_of(argument(arguments, 1)) else {
        return Ok(Item::Says(no_room(alloc)?));
    };
    page_from(
        alloc,
        Some(room),
        argument(arguments, 2),
        after(arguments, 3),
    )
}

/// That the room which a frame names has no members any more.
pub(crate) fn clear(
    alloc: Global,
    selected: Selected,
    arguments: &[&[u8]],
) -> Result<Item, AllocError>
    requires { length arguments.now ≡ 2 }
    ensures { IfOk result (λ item. item ≡ clear_of selected (map (λ argument. argument.now) arguments.now)) }
{
    let Selected::Room(_) = selected else {
        return no_texts(alloc);
    };
    match room_of(argument(arguments, 1)) {
        Some(room) => Ok(Item::Tells(Query::Clear(room))),
        None => Ok(Item::Says(no_room(alloc)?)),
    }
}

// The members of a set of texts aren't known.
fn no_texts(alloc: Global) -> Result<Item, AllocError>
    ensures { IfOk result (λ item. item ≡ Item.Says no_texts) }
{
    let text = error(alloc, b"texts are not kept, and none can be listed")?;
    Ok(Item::Says(text))
}

/// A page of all rooms.
pub(crate) fn scan_all(alloc: Global, arguments: &[&[u8]]) -> Result<Item, AllocError>
    requires { 2 ≤ length arguments.now }
    ensures { IfOk result (λ item. item ≡ scan_all_of (map (λ argument. argument.now) arguments.now)) }
{
    page_from(alloc, None, argument(arguments, 1), after(arguments, 2))
}

// A page from a cursor on, with as many keys as the arguments after it ask for.
fn page_from(
    alloc: Global,
    room: Option<u8>,
    cursor: &[u8],
    options: &[&[u8]],
) -> Result<Item, AllocError>
    ensures { IfOk result (λ item. item ≡ page_from room (number_in 0 most_slots cursor.now) (map (λ argument. argument.now) options.now)) }
{
    let Some(from) = read_number(cursor, 0, MOST_SLOTS) else {
        return Ok(Item::Says(error(alloc, b"invalid cursor")?));
    };
    let from = Slot::new(from as u32);
    if options.is_empty() {
        return page_of(alloc, room, from, FEW_LISTED);
    }
    if options.len() != 2 || !is_name(b"count", argument(options, 0)) {
        return Ok(Item::Says(error(alloc, b"syntax error")?));
    }
    match read_number(argument(options, 1), 0, u64::MAX) {
        Some(most) => page_of(alloc, room, from, most),
        None => {
            let text = error(alloc, b"value is not an integer or out of range")?;
            Ok(Item::Says(text))
        }
    }
}

// A page of so many keys at most.
fn page_of(alloc: Global, room: Option<u8>, from: Slot, most: u64) -> Result<Item, AllocError>
    ensures { IfOk result (λ item. item ≡ page_of room from (Some most)) }
{
    if most == 0 {
        return Ok(Item::Says(error(alloc, b"syntax error")?));
    }
    let most = most.min(MOST_LISTED) as usize;
    Ok(Item::Lists(Scan { room, from, most }))
}
