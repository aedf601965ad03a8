//! Subcommands, their names and what they are answered.
ghost use Rattle.std.specs.Prelude.{◌≡◌};
ghost use Rattle.lz_resp.specs.Commands.{subtext_of};
ghost use Rattle.lz_resp.specs.Names.{subcommand_of, subcommands, subname_of, subtakes};

use crate::command::{Command, is_name};

/// What the second argument of a frame can name.
#[derive(Clone, Copy, Debug, PartialEq, Eq)]
pub(crate) enum Subcommand {
    // of CLIENT
    Getname,
    Setname,
    Setinfo,
    NoEvict,
    NoTouch,
    // of COMMAND
    Count,
    Docs,
    Info,
    // of CONFIG
    Get,
}

impl Subcommand {
    pub(crate) fn name(self) -> &'static str
        ensures { result.now ≡ subname_of self }
    {
        match self {
            Subcommand::Getname => "getname",
            Subcommand::Setname => "setname",
            Subcommand::Setinfo => "setinfo",
            Subcommand::NoEvict => "no-evict",
            Subcommand::NoTouch => "no-touch",
            Subcommand::Count => "count",
            Subcommand::Docs => "docs",
            Subcommand::Info => "info",
            Subcommand::Get => "get",
        }
    }

    /// Whether a frame of so many arguments can be it.
    pub(crate) fn takes(self, count: usize) -> bool
        ensures { result ≡ subtakes self count }
    {
        match self {
            Subcommand::Getname | Subcommand::Count => count == 2,
            Subcommand::Setname | Subcommand::NoEvict | Subcommand::NoTouch => count == 3,
            Subcommand::Setinfo => count == 4,
            Subcommand::Docs | Subcommand::Info => 2 <= count,
            Subcommand::Get => 3 <= count,
        }
    }

    /// What it is answered.
    pub(crate) fn text(self) -> &'static str
        ensures { result.now ≡ subtext_of self }
    {
        match self {
            Subcommand::Getname => "$-1\r\n",
            Subcommand::Setname | Subcommand::Setinfo => "+OK\r\n",
            Subcommand::NoEvict | Subcommand::NoTouch => "+OK\r\n",
            Subcommand::Count => ":27\r\n",
            Subcommand::Docs | Subcommand::Info | Subcommand::Get => "*0\r\n",
        }
    }
}

/// The subcommand of a command that an argument names, in capitals or not.
pub(crate) fn subcommand_of(command: Command, argument: &[u8]) -> Option<Subcommand>
    ensures { result ≡ subcommand_of command argument.now }
{
    for subcommand in subcommands(command) {
        if is_name(subcommand.name().as_bytes(), argument) {
            return Some(*subcommand);
        }
    }
    None
}

// Those of a command.
fn subcommands(command: Command) -> &'static [Subcommand]
    ensures { result.now ≡ subcommands command }
{
    match command {
        Command::Client => &[
            Subcommand::Getname,
            Subcommand::Setname,
            Subcommand::Setinfo,
            Subcommand::NoEvict,
            Subcommand::NoTouch,
        ],
        Command::Catalog => &[Subcommand::Count, Subcommand::Docs, Subcommand::Info],
        Command::Config => &[Subcommand::Get],
        _ => &[],
    }
}
