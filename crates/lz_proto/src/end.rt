//! How a session ends.
ghost use Rattle.std.specs.Prelude.{◌≡◌};
ghost use Rattle.lz_proto.specs.Steps.{end_after};

use crate::reply::Reply;

/// How a session ended.
#[derive(Clone, Copy, Debug, PartialEq, Eq)]
pub enum End {
    /// The input ended.
    Done,
    /// A line was `quit`.
    Quit,
    /// The service replied that it halted.
    Halted,
}

/// How a session goes on after a reply: `Halted` ends it, and no other does.
pub fn end_after(reply: Reply) -> End
    ensures { result ≡ end_after reply }
{
    match reply {
        Reply::Halted => End::Halted,
        _ => End::Done,
    }
}
