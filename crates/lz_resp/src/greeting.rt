//! What clients ask for as they start.
ghost use Rattle.std.specs.Prelude.{◌≡◌, ◌<◌, ℕ, List, IfOk, Some, length, map};
ghost use Rattle.lz_resp.specs.Commands.{hello, hello_by, subtext, subtext_by};

use crate::arguments::argument;
use crate::command::Command;
use crate::errors::{hello_option, unknown_subcommand, wrong_count};
use crate::subcommand::{Subcommand, subcommand_of};
use crate::text::{Text, error};
use lz_slot::read_number;
use std::alloc::{AllocError, Global};

// What the service tells of itself. The version is that of Redis whose words its replies are.
const HELLO: &[u8] =
    b"*14\r\n$6\r\nserver\r\n$7\r\nlazyset\r\n$7\r\nversion\r\n$5\r\n7.0.0\r\n$5\r\nproto\r\n:2\r\n$2\r\nid\r\n:0\r\n$4\r\nmode\r\n$10\r\nstandalone\r\n$4\r\nrole\r\n$6\r\nmaster\r\n$7\r\nmodules\r\n*0\r\n";

/// A greeting.
pub(crate) fn hello(alloc: Global, arguments: &[&[u8]]) -> Result<Text, AllocError>
    ensures { IfOk result (λ text. text ≡ hello (map (λ argument. argument.now) arguments.now)) }
{
    if arguments.len() <= 1 {
        return Text::of(alloc, HELLO);
    }
    match read_number(argument(arguments, 1), 0, u64::MAX) {
        Some(version) => hello_by(alloc, version, arguments),
        None => error(alloc, b"Protocol version is not an integer or out of range"),
    }
}

// A greeting by the version of the protocol.
fn hello_by(alloc: Global, version: u64, arguments: &[&[u8]]) -> Result<Text, AllocError>
    ensures { IfOk result (λ text. text ≡ hello_by (Some version) (map (λ argument. argument.now) arguments.now)) }
{
    if version != 2 {
        return Text::of(alloc, b"-NOPROTO unsupported protocol version\r\n");
    }
    if 2 < arguments.len() {
        return hello_option(alloc, argument(arguments, 2));
    }
    Text::of(alloc, HELLO)
}

/// What a command's subcommand is answered.
pub(crate) fn subtext(
    alloc: Global,
    command: Command,
    arguments: &[&[u8]],
) -> Result<Text, AllocError>
    requires { 1 < length arguments.now }
    ensures { IfOk result (λ text. text ≡ subtext command (map (λ argument. argument.now) arguments.now)) }
{
    match subcommand_of(command, argument(arguments, 1)) {
        Some(subcommand) => subtext_by(alloc, command, subcommand, arguments.len()),
        None => unknown_subcommand(alloc, command, argument(arguments, 1)),
    }
}

// What a subcommand is answered in a frame of so many arguments.
fn subtext_by(
    alloc: Global,
    command: Command,
    subcommand: Subcommand,
    count: usize,
) -> Result<Text, AllocError>
    ensures { IfOk result (λ text. (arguments : List (List ℕ)) → length arguments ≡ count → text ≡ subtext_by command (Some subcommand) arguments) }
{
    if subcommand.takes(count) {
        return Text::of(alloc, subcommand.text().as_bytes());
    }
    let mut name = Vec::from_slice(alloc, command.name().as_bytes())?;
    name.extend_from_slice(b"|")?;
    name.extend_from_slice(subcommand.name().as_bytes())?;
    wrong_count(alloc, name.as_slice())
}
