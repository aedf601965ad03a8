//! Why a line is no request, and why a session broke off.
ghost use Rattle.std.specs.Prelude.{◌≡◌};
ghost use Rattle.lz_proto.specs.Lines.{bad_number};
ghost use Rattle.lz_proto.specs.Sessions.{session_fault_number};

/// Why a line is no request, by the first test that it fails.
#[derive(Clone, Copy, Debug, PartialEq, Eq)]
pub enum Bad {
    /// It has more than `MOST_LINE` bytes.
    TooLong,
    /// It doesn't begin with a command's word and one space.
    NoCommand,
    /// What follows is no number: no bytes, another byte than a digit, or a zero in front.
    NoNumber,
    /// The number is above `lz_slot::MAX_NUMBER`.
    KeyTooLarge,
    /// The input ended before the line did.
    NoEnd,
    /// What follows has a `:`, and what stands before it is no room. This is tested before the number.
    BadRoom,
}

impl Bad {
    /// The number by which a reply tells the fault.
    pub fn number(self) -> u8
        ensures { result ≡ bad_number self }
    {
        match self {
            Bad::TooLong => 1,
            Bad::NoCommand => 2,
            Bad::NoNumber => 3,
            Bad::KeyTooLarge => 4,
            Bad::NoEnd => 5,
            Bad::BadRoom => 6,
        }
    }
}

/// Why a session broke off.
#[derive(Clone, Copy, Debug, PartialEq, Eq)]
pub enum SessionFault {
    /// A read failed. All lines that had come whole before it are answered.
    Read,
    /// A write failed. The command that was being answered has been done, and none after it.
    Write,
    /// No memory was left for the lines of a piece. No command of that piece has been done.
    Memory,
}

impl SessionFault {
    /// The number by which a program tells the fault.
    pub fn number(self) -> u8
        ensures { result ≡ session_fault_number self }
    {
        match self {
            SessionFault::Read => 1,
            SessionFault::Write => 2,
            SessionFault::Memory => 3,
        }
    }
}
