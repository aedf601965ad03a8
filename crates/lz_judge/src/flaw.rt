//! What is wrong with a history.
ghost use Rattle.std.specs.Prelude.{◌≡◌};

/// What is wrong with a history and the order of its calls. Each but the last names a call by its number.
#[derive(Clone, Copy, Debug, PartialEq, Eq)]
pub enum Flaw {
    /// The call was answered and has no point.
    Unlisted(u64),
    /// The number has a point, and is no call's.
    NeverCalled(u64),
    /// The call's point is another call's too, or lies below a point that it must lie above.
    Misordered(u64),
    /// The calls in the order of their points give this call another answer.
    WrongReply(u64),
    /// The open, counted from 1, found another set than the one that the calls before it leave.
    WrongSet(u64),
    /// The call has two points.
    ListedTwice(u64),
    /// The call was refused and has a point.
    RefusedListed(u64),
}

impl Flaw {
    ghost use Rattle.lz_judge.specs.Flaws.{flaw_number, flaw_subject};

    /// The number by which a program tells the flaw.
    pub fn number(self) -> u8
        ensures { result ≡ flaw_number self }
    {
        match self {
            Flaw::Unlisted(_) => 1,
            Flaw::NeverCalled(_) => 2,
            Flaw::Misordered(_) => 3,
            Flaw::WrongReply(_) => 4,
            Flaw::WrongSet(_) => 5,
            Flaw::ListedTwice(_) => 6,
            Flaw::RefusedListed(_) => 7,
        }
    }

    /// The number of the call, or of the open.
    pub fn subject(self) -> u64
        ensures { result ≡ flaw_subject self }
    {
        match self {
            Flaw::Unlisted(call)
            | Flaw::NeverCalled(call)
            | Flaw::Misordered(call)
            | Flaw::WrongReply(call)
            | Flaw::ListedTwice(call)
            | Flaw::RefusedListed(call) => call,
            Flaw::WrongSet(open) => open,
        }
    }
}
