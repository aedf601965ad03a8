//! The texts of errors that show what came.
ghost use Rattle.std.specs.Prelude.{◌≡◌, ◌++◌, ◌<◌, IfOk, OnOk, length, map};
ghost use Rattle.lz_resp.specs.Commands.{hello_option, no_database, no_room, no_transactions, one_database, shown, shown_all, unknown, unknown_subcommand, wrong_count};

use crate::arguments::{after, argument};
use crate::command::Command;
use crate::text::{Text, error, on_line};
use std::alloc::{AllocError, Global};

// How many bytes of an unknown command are told, and of the arguments after it.
const MOST_SHOWN: usize = 128;

/// No room has this name, where a set's stands.
pub(crate) fn no_room(alloc: Global) -> Result<Text, AllocError>
    ensures { IfOk result (λ text. text ≡ no_room) }
{
    error(
        alloc,
        b"a set's name is a room, 0 to 15 (serve --text takes names)",
    )
}

/// No room has this name, where one is selected.
pub(crate) fn no_database(alloc: Global) -> Result<Text, AllocError>
    ensures { IfOk result (λ text. text ≡ no_database) }
{
    error(alloc, b"DB index is out of range")
}

/// Where names are texts there are no rooms to select.
pub(crate) fn one_database(alloc: Global) -> Result<Text, AllocError>
    ensures { IfOk result (λ text. text ≡ one_database) }
{
    error(
        alloc,
        b"SELECT: with --text there is database 0 alone; give each application's sets names of their own",
    )
}

/// No command is kept for later, and none is done at once in its place.
pub(crate) fn no_transactions(alloc: Global) -> Result<Text, AllocError>
    ensures { IfOk result (λ text. text ≡ no_transactions) }
{
    error(
        alloc,
        b"transactions aren't served; nothing is done until EXEC or DISCARD",
    )
}

/// The command or subcommand of this name takes no frame of so many arguments.
pub(crate) fn wrong_count(alloc: Global, name: &[u8]) -> Result<Text, AllocError>
    ensures { IfOk result (λ text. text ≡ wrong_count name.now) }
{
    let mut words = Vec::from_slice(alloc, b"wrong number of arguments for '")?;
    words.extend_from_slice(name)?;
    words.extend_from_slice(b"' command")?;
    error(alloc, words.as_slice())
}

/// The command has no subcommand of this name.
pub(crate) fn unknown_subcommand(
    alloc: Global,
    command: Command,
    argument: &[u8],
) -> Result<Text, AllocError>
    ensures { IfOk result (λ text. text ≡ unknown_subcommand command argument.now) }
{
    let name = command.name().as_bytes().to_ascii_uppercase(alloc)?;
    let mut text = Vec::from_slice(alloc, b"unknown subcommand '")?;
    push_shown(&mut text, MOST_SHOWN, argument)?;
    text.extend_from_slice(b"'. Try ")?;
    text.extend_from_slice(name.as_slice())?;
    text.extend_from_slice(b" HELP.")?;
    error(alloc, text.as_slice())
}

/// A greeting takes no option.
pub(crate) fn hello_option(alloc: Global, argument: &[u8]) -> Result<Text, AllocError>
    ensures { IfOk result (λ text. text ≡ hello_option argument.now) }
{
    let mut text = Vec::from_slice(alloc, b"Syntax error in HELLO option '")?;
    push_shown(&mut text, MOST_SHOWN, argument)?;
    text.extend_from_slice(b"'")?;
    error(alloc, text.as_slice())
}

/// No command has this name.
pub(crate) fn unknown(alloc: Global, arguments: &[&[u8]]) -> Result<Text, AllocError>
    requires { 0 < length arguments.now }
    ensures { IfOk result (λ text. text ≡ unknown (map (λ argument. argument.now) arguments.now)) }
{
    let mut text = Vec::from_slice(alloc, b"unknown command '")?;
    push_shown(&mut text, MOST_SHOWN, argument(arguments, 0))?;
    text.extend_from_slice(b"', with args beginning with: ")?;
    push_all(&mut text, after(arguments, 1))?;
    error(alloc, text.as_slice())
}

// Puts arguments in quotes after a text, as far as there is room for them.
fn push_all(text: &mut Vec<u8>, arguments: &[&[u8]]) -> Result<(), AllocError>
    ensures { OnOk result (text.new.items ≡ text.old.items ++ shown_all 128 (map (λ argument. argument.now) arguments.now)) }
{
    let mut room = MOST_SHOWN;
    for argument in arguments {
        if room == 0 {
            return Ok(());
        }
        text.extend_from_slice(b"'")?;
        push_shown(text, room, argument)?;
        text.extend_from_slice(b"' ")?;
        room = room.saturating_sub(argument.len().min(room) + 3);
    }
    Ok(())
}

// Puts so many bytes of an argument after a text.
fn push_shown(text: &mut Vec<u8>, most: usize, argument: &[u8]) -> Result<(), AllocError>
    ensures { OnOk result (text.new.items ≡ text.old.items ++ shown most argument.now) }
{
    let (part, _) = argument.split_at(most.min(argument.len()));
    for byte in part {
        text.push(on_line(*byte))?;
    }
    Ok(())
}
