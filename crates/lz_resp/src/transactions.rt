//! What frames come to, by whether they stand in a transaction.
ghost use Rattle.std.specs.Prelude.{◌≡◌, ◌<◌, IfOk, Some, map, length};
ghost use Rattle.lz_resp.specs.Commands.{no_transactions};
ghost use Rattle.lz_resp.specs.Keys.{IsRoom};
ghost use Rattle.lz_resp.specs.Transactions.{after_refused, begins, ends, item_in, item_within, refused, state_after};

use crate::arguments::argument;
use crate::asking::{item_with, selected_by};
use crate::command::{Command, command_of};
use crate::errors::no_transactions;
use crate::item::Item;
use crate::state::State;
use crate::text::Text;
use std::alloc::{AllocError, Global};

/// What a frame of some arguments comes to, and the state after it.
#[inline(always)]
pub fn item_in(alloc: Global, state: &mut State, arguments: &[&[u8]]) -> Result<Item, AllocError>
    requires some { 0 < length arguments.now }
    requires range { IsRoom state.old.selected }
    ensures item { IfOk result (λ item. item ≡ item_in state.old (map (λ argument. argument.now) arguments.now)) }
    ensures state { state.new ≡ state_after state.old (map (λ argument. argument.now) arguments.now) }
    ensures range { IsRoom state.new.selected }
{
    let command = command_of(argument(arguments, 0));
    if state.refuses {
        return refused(alloc, command, state, arguments);
    }
    state.refuses = begins(command, arguments.len());
    item_with(alloc, command, &mut state.selected, arguments)
}

// Whether a frame of so many arguments begins a transaction.
fn begins(command: Option<Command>, count: usize) -> bool
    ensures { result ≡ begins command count }
{
    matches!(command, Some(Command::Multi)) && count == 1
}

// The same in a transaction, where nothing is done.
#[inline(never)]
fn refused(
    alloc: Global,
    command: Option<Command>,
    state: &mut State,
    arguments: &[&[u8]],
) -> Result<Item, AllocError>
    requires range { IsRoom state.old.selected }
    ensures item { IfOk result (λ item. item ≡ refused command (length arguments.now)) }
    ensures state { state.new ≡ after_refused command state.old (map (λ argument. argument.now) arguments.now) }
    ensures range { IsRoom state.new.selected }
{
    let Some(command) = command else {
        return Ok(Item::Says(no_transactions(alloc)?));
    };
    if !command.takes(arguments.len()) {
        return Ok(Item::Says(no_transactions(alloc)?));
    }
    if ends(command) {
        *state = State {
            selected: selected_by(command, state.selected, arguments),
            refuses: false,
        };
    }
    item_within(alloc, command)
}

// Whether a command ends a transaction.
fn ends(command: Command) -> bool
    ensures { result ≡ ends command }
{
    matches!(command, Command::Exec | Command::Discard | Command::Reset)
}

// What a command comes to in one.
fn item_within(alloc: Global, command: Command) -> Result<Item, AllocError>
    ensures { IfOk result (λ item. item ≡ item_within command) }
{
    match command {
        Command::Exec => {
            let text = b"-EXECABORT Transaction discarded because of previous errors.\r\n";
            Ok(Item::Says(Text::of(alloc, text)?))
        }
        Command::Discard => Ok(Item::Says(Text::of(alloc, b"+OK\r\n")?)),
        Command::Reset => Ok(Item::Says(Text::of(alloc, b"+RESET\r\n")?)),
        Command::Quit => Ok(Item::Ends(Text::of(alloc, b"+OK\r\n")?)),
        _ => Ok(Item::Says(no_transactions(alloc)?)),
    }
}
