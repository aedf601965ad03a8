//! How a command ends.
ghost use Rattle.std.specs.Prelude.{◌≡◌};
ghost use Rattle.lazyset_file_commands.specs.Ends.{status_code};

/// How a command ended, as the process tells it.
#[derive(Clone, Copy, Debug, PartialEq, Eq)]
pub enum Status {
    /// All was done.
    Done,
    /// The set was halted, a device, a reader or a writer failed, or there was no memory.
    Failed,
    /// The command line was not understood.
    CommandLine,
    /// The file, or the input, was refused.
    Refused,
    /// The file is damaged, or the history was judged wrong.
    Damaged,
}

impl Status {
    /// The exit status of the process.
    pub fn code(self) -> u8
        ensures { result ≡ status_code self }
    {
        match self {
            Status::Done => 0,
            Status::Failed => 1,
            Status::CommandLine => 2,
            Status::Refused => 3,
            Status::Damaged => 4,
        }
    }
}
