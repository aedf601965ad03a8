//! The command line that the program understands, made of the table.
use crate::given::{Given, Listens};
use crate::ids::NO_PORT;
use crate::sheets::{SHEETS, STATUSES, Sheet};
use crate::word::{Beside, Form, Word};
use clap::{Arg, ArgAction, Command, value_parser};
use std::alloc::{AllocError, Global};

// The program's version, and the kit that proved and built it, as `rt version` names it.
const VERSION: &str = "1.21, logic dac8208d650f15bf";

/// The same version's numbers.
pub const MAJOR: usize = 1;

pub const MINOR: usize = 21;

/// The command line that the program understands where this is given.
pub fn command_line<'a>(alloc: Global, given: Given) -> Result<Command<'a>, AllocError> {
    let mut command = Command::new(alloc, "lazyset")
        .version(VERSION)
        .about(
            "A set of keys, 0 to 999999999999999999 in each of 16 rooms, that survives crashes: every answer that was given lasts",
        )
        .after_help(STATUSES)
        .subcommand_required(true);
    for sheet in SHEETS {
        command = command.subcommand(command_of(alloc, sheet, given)?)?;
    }
    Ok(command)
}

fn command_of<'a>(alloc: Global, sheet: Sheet, given: Given) -> Result<Command<'a>, AllocError> {
    let command = Command::new(alloc, sheet.name)
        .about(sheet.about)
        .after_help(sheet.notes);
    with_words(alloc, command, sheet.words, given)
}

fn with_words<'a>(
    alloc: Global,
    command: Command<'a>,
    words: &[Word],
    given: Given,
) -> Result<Command<'a>, AllocError> {
    let mut command = command;
    for word in words {
        command = command.arg(arg_of(alloc, *word, given)?)?;
    }
    Ok(command)
}

fn arg_of<'a>(alloc: Global, word: Word, given: Given) -> Result<Arg<'a>, AllocError> {
    let arg = parsed(
        Arg::new(alloc, word.id).help(word.help),
        word.form,
        given.listens,
    );
    let arg = match (word.form, word.value_name) {
        (Form::Flag, _) => arg.long(word.id),
        (Form::Choice(_), Some(name)) => arg
            .long(word.id)
            .value_name(name)
            .num_args(0..=1)
            .require_equals(true),
        (Form::Port(..) | Form::Passes, None) => arg.required(given.has_passes),
        (Form::LastNumber, _) => arg,
        (_, None) => arg.required(true),
        (_, Some(name)) => arg.long(word.id).value_name(name),
    };
    let arg = match word.beside {
        Beside::Anything => arg,
        Beside::Needs(id) => arg.requires_arg(id)?,
        Beside::Excludes(id) => arg.conflicts_with(id)?,
        Beside::Serving(Some(needed), others) if given.has_passes => {
            arg.requires_arg(needed)?.conflicts_with_all(others)?
        }
        Beside::Serving(_, others) => arg.conflicts_with_all(others)?,
    };
    Ok(match word.default {
        None => arg,
        Some(text) => arg.default_value(text),
    })
}

fn parsed<'a>(arg: Arg<'a>, form: Form, listens: Listens) -> Arg<'a> {
    match form {
        Form::Flag => arg.action(ArgAction::SetTrue),
        Form::Text => arg,
        Form::Choice(choices) => arg.value_parser(choices),
        Form::Number | Form::LastNumber | Form::Passes => arg.value_parser(value_parser!(u64)),
        Form::Within(least, most) => within(arg, least, most),
        Form::Port(least, most) => match listens {
            Listens::AtPort => within(arg, least, most),
            Listens::AtPath => arg.value_parser(NO_PORT),
        },
    }
}

fn within<'a>(arg: Arg<'a>, least: i64, most: i64) -> Arg<'a> {
    arg.value_parser(value_parser!(u64).range(least..=most))
}
