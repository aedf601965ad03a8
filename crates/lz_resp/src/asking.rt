//! What a frame asks for.
ghost use Rattle.std.specs.Prelude.{◌≡◌, ◌≤◌, ◌<◌, IfOk, None, Some, map, length, true};
ghost use Rattle.lz_slot.specs.Limits.{last_room};
ghost use Rattle.lz_resp.specs.Commands.{in_subset, in_named, in_unnamed, is_saving, item_by, item_with, may_shut_down, no_key, requests_of, room_by, sections_in, selected_by, with_value, wrong_count};
ghost use Rattle.lz_resp.specs.Keys.{IsThere, IsRoom, subset_of};
ghost use Rattle.lz_resp.specs.Names.{name_of, takes};

use crate::arguments::{after, argument};
use crate::command::{Command, is_name};
use crate::errors::{no_database, no_room, no_transactions, one_database, unknown, wrong_count};
use crate::form::Form;
use crate::greeting::{hello, subtext};
use crate::item::{Item, Requests};
use crate::limits::MOST_VALUE;
use crate::naming::{Selected, room_of};
use crate::query::{Query, Sections};
use crate::scanning::{clear, scan, scan_all};
use crate::subset::Subset;
use crate::text::{Text, bulk, error};
use std::alloc::{AllocError, Global};

/// What a frame of some arguments comes to by the command that its first one names, and what is selected after it.
pub(crate) fn item_with(
    alloc: Global,
    command: Option<Command>,
    selected: &mut Selected,
    arguments: &[&[u8]],
) -> Result<Item, AllocError>
    requires some { 0 < length arguments.now }
    requires range { IsRoom selected.old }
    ensures item { IfOk result (λ item. item ≡ item_with command selected.old (map (λ argument. argument.now) arguments.now)) }
    ensures selected { selected.new ≡ selected_by command selected.old (map (λ argument. argument.now) arguments.now) }
    ensures range { IsRoom selected.new }
{
    let Some(command) = command else {
        return no_command(alloc, arguments);
    };
    if !command.takes(arguments.len()) {
        return not_taken(alloc, command);
    }
    let before = *selected;
    *selected = selected_by(command, before, arguments);
    item_by(alloc, command, before, arguments)
}

// The reply to an argument that names no command.
#[inline(never)]
fn no_command(alloc: Global, arguments: &[&[u8]]) -> Result<Item, AllocError>
    requires { 0 < length arguments.now }
    ensures { IfOk result (λ item. item ≡ item_with None (Selected.Nameless None) (map (λ argument. argument.now) arguments.now)) }
{
    Ok(Item::Says(unknown(alloc, arguments)?))
}

// The reply to a frame that the command doesn't take.
#[inline(never)]
fn not_taken(alloc: Global, command: Command) -> Result<Item, AllocError>
    ensures { IfOk result (λ item. item ≡ Item.Says (wrong_count (name_of command))) }
{
    Ok(Item::Says(wrong_count(alloc, command.name().as_bytes())?))
}

// What a frame that the command takes comes to.
fn item_by(
    alloc: Global,
    command: Command,
    selected: Selected,
    arguments: &[&[u8]],
) -> Result<Item, AllocError>
    requires some { 0 < length arguments.now }
    requires takes { takes command (length arguments.now) ≡ true }
    requires range { IsRoom selected }
    ensures { IfOk result (λ item. item ≡ item_by command selected (map (λ argument. argument.now) arguments.now)) }
{
    match command {
        Command::Sadd => in_named(alloc, Form::Added, selected, arguments),
        Command::Srem => in_named(alloc, Form::Removed, selected, arguments),
        Command::Sismember => in_named(alloc, Form::Found, selected, arguments),
        Command::Smismember => in_named(alloc, Form::Each, selected, arguments),
        Command::Sscan => scan(alloc, selected, arguments),
        Command::LzScan => scan_all(alloc, arguments),
        Command::LzClear => clear(alloc, selected, arguments),
        Command::Exists => in_unnamed(alloc, Form::Found, selected, after(arguments, 1)),
        Command::Del | Command::Unlink => in_unnamed(
            alloc,
            Form::Removed,
            selected,
            after(arguments, 1),
        ),
        Command::Setnx => with_value(alloc, Form::Added, selected, arguments),
        Command::Set => set(alloc, selected, arguments),
        Command::Select => select(alloc, selected, arguments),
        Command::Ping => ping(alloc, arguments),
        Command::Echo => Ok(Item::Says(bulk(alloc, argument(arguments, 1))?)),
        Command::Quit => Ok(Item::Ends(Text::of(alloc, b"+OK\r\n")?)),
        Command::Reset => Ok(Item::Says(Text::of(alloc, b"+RESET\r\n")?)),
        Command::Multi => Ok(Item::Says(no_transactions(alloc)?)),
        Command::Exec => Ok(Item::Says(error(alloc, b"EXEC without MULTI")?)),
        Command::Discard => Ok(Item::Says(error(alloc, b"DISCARD without MULTI")?)),
        Command::Hello => Ok(Item::Says(hello(alloc, arguments)?)),
        Command::Catalog => Ok(Item::Says(catalog(alloc, arguments)?)),
        Command::Client | Command::Config => Ok(Item::Says(subtext(alloc, command, arguments)?)),
        Command::Dbsize => Ok(Item::Tells(Query::Size)),
        Command::Info => Ok(Item::Tells(Query::Info(sections_in(arguments)))),
        Command::Shutdown => shut_down(alloc, arguments),
    }
}

// Members of the subset that a frame names.
fn in_named(
    alloc: Global,
    form: Form,
    selected: Selected,
    arguments: &[&[u8]],
) -> Result<Item, AllocError>
    requires { 3 ≤ length arguments.now }
    ensures { IfOk result (λ item. item ≡ in_named form selected (map (λ argument. argument.now) arguments.now)) }
{
    match selected.of_name(argument(arguments, 1)) {
        Some(subset) => in_subset(alloc, form, subset, after(arguments, 2)),
        None => Ok(Item::Says(no_room(alloc)?)),
    }
}

// Members of the subset of a command that names none.
fn in_unnamed(
    alloc: Global,
    form: Form,
    selected: Selected,
    members: &[&[u8]],
) -> Result<Item, AllocError>
    requires { IsRoom selected }
    ensures { IfOk result (λ item. item ≡ in_unnamed form selected (map (λ argument. argument.now) members.now)) }
{
    in_subset(alloc, form, selected.unnamed(), members)
}

// Members of a subset. Most frames have one.
#[inline(always)]
fn in_subset(
    alloc: Global,
    form: Form,
    subset: Subset,
    members: &[&[u8]],
) -> Result<Item, AllocError>
    requires { IsThere (subset_of subset) }
    ensures { IfOk result (λ item. item ≡ in_subset form (Some (subset_of subset.entry)) (map (λ argument. argument.now) members.now)) }
{
    if let [member] = members {
        return match subset.key_of(member) {
            Some(key) => Ok(Item::Asks(form, Requests::one(form.request(key)))),
            None => no_key(alloc),
        };
    }
    match requests_of(alloc, form, subset, members)? {
        Some(requests) => Ok(Item::Asks(form, requests)),
        None => no_key(alloc),
    }
}

// The reply to a member that is no key.
#[inline(never)]
fn no_key(alloc: Global) -> Result<Item, AllocError>
    ensures { IfOk result (λ item. item ≡ Item.Says no_key) }
{
    let text = error(
        alloc,
        b"value is not an integer or out of range (serve --text takes texts)",
    )?;
    Ok(Item::Says(text))
}

// A request for each member, unless one is no key.
#[inline(never)]
fn requests_of(
    alloc: Global,
    form: Form,
    subset: Subset,
    members: &[&[u8]],
) -> Result<Option<Requests>, AllocError>
    requires { IsThere (subset_of subset) }
    ensures { IfOk result (λ requests. requests ≡ requests_of form (subset_of subset.entry) (map (λ argument. argument.now) members.now)) }
{
    let mut list = Vec::with_capacity(alloc, members.len())?;
    for member in members {
        let Some(key) = subset.key_of(member) else {
            return Ok(None);
        };
        list.push(form.request(key))?;
    }
    Ok(Some(Requests::new(list)))
}

// A member with a value.
fn with_value(
    alloc: Global,
    form: Form,
    selected: Selected,
    arguments: &[&[u8]],
) -> Result<Item, AllocError>
    requires arguments { 3 ≤ length arguments.now }
    requires range { IsRoom selected }
    ensures { IfOk result (λ item. item ≡ with_value form selected (map (λ argument. argument.now) arguments.now)) }
{
    if MOST_VALUE < argument(arguments, 2).len() {
        let text = error(alloc, b"values are not kept, and may have 64 bytes")?;
        return Ok(Item::Says(text));
    }
    in_unnamed(alloc, form, selected, &[argument(arguments, 1)])
}

fn set(alloc: Global, selected: Selected, arguments: &[&[u8]]) -> Result<Item, AllocError>
    requires arguments { 3 ≤ length arguments.now }
    requires range { IsRoom selected }
    ensures { IfOk result (λ item. item ≡ item_by Command.Set selected (map (λ argument. argument.now) arguments.now)) }
{
    if arguments.len() == 4 && is_name(b"nx", argument(arguments, 3)) {
        return with_value(alloc, Form::Stored, selected, arguments);
    }
    let text = error(
        alloc,
        b"syntax error: SET takes NX alone, as in SET key value NX",
    )?;
    Ok(Item::Says(text))
}

fn select(alloc: Global, selected: Selected, arguments: &[&[u8]]) -> Result<Item, AllocError>
    requires { length arguments.now ≡ 2 }
    ensures { IfOk result (λ item. item ≡ item_by Command.Select selected (map (λ argument. argument.now) arguments.now)) }
{
    match (selected, room_of(argument(arguments, 1))) {
        (Selected::Room(_), Some(_)) | (Selected::Nameless(_), Some(0)) => {
            Ok(Item::Says(Text::of(alloc, b"+OK\r\n")?))
        }
        (Selected::Room(_), None) => Ok(Item::Says(no_database(alloc)?)),
        (Selected::Nameless(_), _) => Ok(Item::Says(one_database(alloc)?)),
    }
}

fn ping(alloc: Global, arguments: &[&[u8]]) -> Result<Item, AllocError>
    ensures { IfOk result (λ item. item ≡ item_by Command.Ping (Selected.Nameless None) (map (λ argument. argument.now) arguments.now)) }
{
    if arguments.len() == 2 {
        Ok(Item::Says(bulk(alloc, argument(arguments, 1))?))
    } else {
        Ok(Item::Says(Text::of(alloc, b"+PONG\r\n")?))
    }
}

// What is told of the commands: none is described.
fn catalog(alloc: Global, arguments: &[&[u8]]) -> Result<Text, AllocError>
    requires { 0 < length arguments.now }
    ensures { IfOk result (λ text. Item.Says text ≡ item_by Command.Catalog (Selected.Nameless None) (map (λ argument. argument.now) arguments.now)) }
{
    if arguments.len() == 1 {
        Text::of(alloc, b"*0\r\n")
    } else {
        subtext(alloc, Command::Catalog, arguments)
    }
}

// The sections that are asked for.
fn sections_in(arguments: &[&[u8]]) -> Sections
    ensures { result ≡ sections_in (map (λ argument. argument.now) arguments.now) }
{
    if arguments.len() == 2 {
        Sections::of(argument(arguments, 1))
    } else {
        Sections::All
    }
}

fn shut_down(alloc: Global, arguments: &[&[u8]]) -> Result<Item, AllocError>
    ensures { IfOk result (λ item. item ≡ item_by Command.Shutdown (Selected.Nameless None) (map (λ argument. argument.now) arguments.now)) }
{
    if may_shut_down(arguments) {
        return Ok(Item::Tells(Query::Shutdown));
    }
    Ok(Item::Says(error(alloc, b"syntax error")?))
}

fn may_shut_down(arguments: &[&[u8]]) -> bool
    ensures { result ≡ may_shut_down (map (λ argument. argument.now) arguments.now) }
{
    arguments.len() == 1 || arguments.len() == 2 && is_saving(argument(arguments, 1))
}

fn is_saving(argument: &[u8]) -> bool
    ensures { result ≡ is_saving argument.now }
{
    is_name(b"nosave", argument) || is_name(b"save", argument)
}

/// What a command selects.
pub(crate) fn selected_by(command: Command, selected: Selected, arguments: &[&[u8]]) -> Selected
    requires { IsRoom selected }
    ensures selected { result ≡ selected_by (Some command) selected (map (λ argument. argument.now) arguments.now) }
    ensures range { IsRoom result }
{
    match selected {
        Selected::Room(room) => Selected::Room(room_by(command, room, arguments)),
        Selected::Nameless(secret) => Selected::Nameless(secret),
    }
}

// The room that a command selects.
fn room_by(command: Command, room: u8, arguments: &[&[u8]]) -> u8
    requires { room ≤ last_room }
    ensures room { result ≡ room_by (Some command) room (map (λ argument. argument.now) arguments.now) }
    ensures range { result ≤ last_room }
{
    match command {
        Command::Select if arguments.len() == 2 => room_of(argument(arguments, 1)).unwrap_or(room),
        Command::Reset if arguments.len() == 1 => 0,
        _ => room,
    }
}
