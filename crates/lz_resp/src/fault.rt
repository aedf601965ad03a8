//! Why a stream goes on in no frame.
ghost use Rattle.lz_resp.specs.declared.fault.Stop.TheVariants.{Faulty, Memory};
ghost use Rattle.std.specs.Prelude.{◌≡◌};

use std::alloc::{AllocError, AllocFailed};

/// Why a stream goes on in no frame, by the first test that it fails.
#[derive(Clone, Copy, Debug, PartialEq, Eq)]
pub enum Fault {
    /// What follows a `*` is no number of arguments.
    Count,
    /// What follows a `$` is no length of an argument.
    Length,
    /// This byte stands where a `$` should.
    NoBulk(u8),
    /// A bulk string isn't followed by CR and LF.
    NoEnd,
    /// An inline frame has a `'` or a `"`.
    Quotes,
    /// A frame has more than `MOST_FRAME` bytes, or an inline one more or longer arguments than a frame may have.
    TooLong,
}

/// Why nothing was read.
#[derive(Clone, Copy, Debug)]
pub enum Stop {
    Memory,
    Faulty(Fault),
}

impl From<Fault> for Stop {
    ghost from_gives = { λ fault e. e ≡ Faulty fault };

    fn from(fault: Fault) -> Stop {
        Stop::Faulty(fault)
    }
}

impl From<AllocError> for Stop {
    ghost from_gives = { λ _ e. e ≡ Memory };

    fn from(_error: AllocError) -> Stop {
        Stop::Memory
    }
}

impl<T: Drop> From<AllocFailed<T>> for Stop {
    ghost from_gives = { λ _ e. e ≡ Memory };

    fn from(_error: AllocFailed<T>) -> Stop {
        Stop::Memory
    }
}
