//! Commands and their names.
ghost use Rattle.std.specs.Prelude.{◌≡◌};
ghost use Rattle.lz_resp.specs.Names.{all_commands, command_of, is_name, name_of, takes};

/// What the first argument of a frame can name.
#[derive(Clone, Copy, Debug, PartialEq, Eq)]
pub(crate) enum Command {
    Sadd,
    Srem,
    Sismember,
    Smismember,
    Sscan,
    LzScan,
    LzClear,
    Exists,
    Del,
    Unlink,
    Setnx,
    Set,
    Select,
    Ping,
    Echo,
    Quit,
    Reset,
    Hello,
    Client,
    Catalog,
    Config,
    Dbsize,
    Info,
    Multi,
    Exec,
    Discard,
    Shutdown,
}

impl Command {
    pub(crate) fn name(self) -> &'static str
        ensures { result.now ≡ name_of self }
    {
        match self {
            Command::Sadd => "sadd",
            Command::Srem => "srem",
            Command::Sismember => "sismember",
            Command::Smismember => "smismember",
            Command::Sscan => "sscan",
            Command::LzScan => "lz.scan",
            Command::LzClear => "lz.clear",
            Command::Exists => "exists",
            Command::Del => "del",
            Command::Unlink => "unlink",
            Command::Setnx => "setnx",
            Command::Set => "set",
            Command::Select => "select",
            Command::Ping => "ping",
            Command::Echo => "echo",
            Command::Quit => "quit",
            Command::Reset => "reset",
            Command::Hello => "hello",
            Command::Client => "client",
            Command::Catalog => "command",
            Command::Config => "config",
            Command::Dbsize => "dbsize",
            Command::Info => "info",
            Command::Multi => "multi",
            Command::Exec => "exec",
            Command::Discard => "discard",
            Command::Shutdown => "shutdown",
        }
    }

    /// Whether a frame of so many arguments can be it.
    pub(crate) fn takes(self, count: usize) -> bool
        ensures { result ≡ takes self count }
    {
        match self {
            Command::Sadd | Command::Srem | Command::Smismember | Command::Set => 3 <= count,
            Command::Sscan => 3 <= count,
            Command::LzScan | Command::Exists | Command::Del | Command::Unlink => 2 <= count,
            Command::Client | Command::Config => 2 <= count,
            Command::Sismember | Command::Setnx => count == 3,
            Command::LzClear | Command::Select | Command::Echo => count == 2,
            Command::Ping | Command::Info => count <= 2,
            Command::Reset | Command::Dbsize => count == 1,
            Command::Multi | Command::Exec | Command::Discard => count == 1,
            Command::Quit | Command::Hello | Command::Catalog | Command::Shutdown => true,
        }
    }
}

/// The command that an argument names, in capitals or not.
pub(crate) fn command_of(argument: &[u8]) -> Option<Command>
    ensures { result ≡ command_of argument.now }
{
    for command in commands() {
        if is_name(command.name().as_bytes(), argument) {
            return Some(*command);
        }
    }
    None
}

// All of them, in the order in which they are looked for: the most frequent ones first.
fn commands() -> &'static [Command]
    ensures { result.now ≡ all_commands }
{
    &[
        Command::Sadd,
        Command::Srem,
        Command::Sismember,
        Command::Smismember,
        Command::Sscan,
        Command::LzScan,
        Command::LzClear,
        Command::Exists,
        Command::Del,
        Command::Unlink,
        Command::Setnx,
        Command::Set,
        Command::Select,
        Command::Ping,
        Command::Echo,
        Command::Quit,
        Command::Reset,
        Command::Hello,
        Command::Client,
        Command::Catalog,
        Command::Config,
        Command::Dbsize,
        Command::Info,
        Command::Multi,
        Command::Exec,
        Command::Discard,
        Command::Shutdown,
    ]
}

/// Whether an argument is this name, in capitals or not.
pub fn is_name(name: &[u8], argument: &[u8]) -> bool
    ensures { result ≡ is_name name.now argument.now }
{
    argument.eq_ignore_ascii_case(name)
}
