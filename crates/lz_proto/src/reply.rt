//! Replies and their texts.
ghost use Rattle.std.specs.Prelude.{◌≡◌};
ghost use Rattle.lz_proto.specs.Sessions.{bad_text, reply_text};

use crate::fault::Bad;

/// What a service replies to a request.
#[derive(Clone, Copy, Debug, PartialEq, Eq)]
pub enum Reply {
    Yes,
    No,
    /// There is no room for the key.
    Full,
    /// The service has stopped, and the session ends.
    Halted,
    /// The caller's counter has run out.
    Worn,
    /// The file's format has no room for the key.
    OldFile,
}

/// The line that tells a reply.
pub fn reply_text(reply: Reply) -> &'static str
    ensures { result.now ≡ reply_text reply }
{
    match reply {
        Reply::Yes => "yes\n",
        Reply::No => "no\n",
        Reply::Full => "full\n",
        Reply::Halted => "halted\n",
        Reply::Worn => "worn\n",
        Reply::OldFile => "oldfile\n",
    }
}

/// The line that tells a fault: `bad` and its number.
pub fn bad_text(bad: Bad) -> &'static str
    ensures { result.now ≡ bad_text bad }
{
    match bad {
        Bad::TooLong => "bad 1\n",
        Bad::NoCommand => "bad 2\n",
        Bad::NoNumber => "bad 3\n",
        Bad::KeyTooLarge => "bad 4\n",
        Bad::NoEnd => "bad 5\n",
        Bad::BadRoom => "bad 6\n",
    }
}
