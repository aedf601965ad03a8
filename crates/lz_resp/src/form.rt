//! The forms of a reply to requests.
ghost use Rattle.std.specs.Prelude.{◌≡◌, ◌≢◌};
ghost use Rattle.lz_resp.specs.Commands.{request_of};
ghost use Rattle.lz_resp.specs.Replies.{done, is_sum};

use lz_proto::Request;
use lz_slot::Key;

/// How the replies to a frame's requests are told.
#[derive(Clone, Copy, Debug, PartialEq, Eq)]
pub enum Form {
    /// How many keys were added.
    Added,
    /// How many were removed.
    Removed,
    /// How many are in the set.
    Found,
    /// Of each whether it is in the set.
    Each,
    /// `OK` if a key was added, else nil.
    Stored,
}

impl Form {
    /// What is asked of a key.
    pub(crate) fn request(self, key: Key) -> Request
        ensures request { result ≡ request_of self key }
        ensures asks { result ≢ Request.Quit }
    {
        match self {
            Form::Added | Form::Stored => Request::Add(key),
            Form::Removed => Request::Remove(key),
            Form::Found | Form::Each => Request::Has(key),
        }
    }

    /// Whether the reply is a number of requests.
    pub(crate) fn is_sum(self) -> bool
        ensures { result ≡ is_sum self }
    {
        matches!(self, Form::Added | Form::Removed | Form::Found)
    }

    /// What a yes tells of a key.
    pub fn done(self) -> &'static str
        ensures { result.now ≡ done self }
    {
        match self {
            Form::Added | Form::Stored => "added",
            Form::Removed => "removed",
            Form::Found | Form::Each => "found",
        }
    }
}
