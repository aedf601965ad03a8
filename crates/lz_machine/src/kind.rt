//! Kinds of events.
ghost use Rattle.std.specs.Prelude.{◌≡◌};
ghost use Rattle.lz_machine.specs.Kinds.{kind_of};

use crate::event::Event;

/// A kind of event.
#[derive(Clone, Copy, Debug, PartialEq, Eq)]
pub enum Kind {
    Invoke,
    Pin,
    Hop,
    Reserve,
    WriteKey,
    Claim,
    Check,
    WriteOpen,
    Link,
    WriteClose,
    Mark,
    Release,
    Sync,
    Settle,
    Unlink,
    Retire,
    SeePin,
    Answer,
    Halt,
}

impl Event {
    /// Which kind of event it is.
    pub fn kind(self) -> Kind
        ensures { result ≡ kind_of self }
    {
        match self {
            Event::Invoke(_) => Kind::Invoke,
            Event::Pin => Kind::Pin,
            Event::Hop(_) => Kind::Hop,
            Event::Reserve => Kind::Reserve,
            Event::WriteKey(_) => Kind::WriteKey,
            Event::Claim(_, _) => Kind::Claim,
            Event::Check => Kind::Check,
            Event::WriteOpen => Kind::WriteOpen,
            Event::Link => Kind::Link,
            Event::WriteClose => Kind::WriteClose,
            Event::Mark => Kind::Mark,
            Event::Release => Kind::Release,
            Event::Sync(_) => Kind::Sync,
            Event::Settle(_) => Kind::Settle,
            Event::Unlink => Kind::Unlink,
            Event::Retire => Kind::Retire,
            Event::SeePin(_, _) => Kind::SeePin,
            Event::Answer => Kind::Answer,
            Event::Halt => Kind::Halt,
        }
    }
}
