//! Why a call has no answer.
ghost use Rattle.std.specs.Prelude.{◌≡◌};
ghost use Rattle.lz_set.specs.Answers.{fault_number};

use lz_allot::Counts;

/// Why a call has no answer.
#[derive(Clone, Copy, Debug, PartialEq, Eq)]
pub enum Fault {
    /// No slot was free, as the counts say. The set is as if the call hadn't been made.
    Full(Counts),
    /// The device had failed before. The call counts as still under way.
    Halted,
    /// The pass was used up. The set is as if the call hadn't been made.
    Worn,
    /// The device failed in this call, which counts as still under way.
    Device,
    /// The file has format 1 and the room isn't 0. The set is as if the call hadn't been made.
    OldFile,
}

impl Fault {
    /// The number by which a program tells the fault.
    pub fn number(self) -> u8
        ensures { result ≡ fault_number self }
    {
        match self {
            Fault::Full(_) => 1,
            Fault::Halted => 2,
            Fault::Worn => 3,
            Fault::Device => 4,
            Fault::OldFile => 5,
        }
    }
}
