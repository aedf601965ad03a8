//! The words that mend a service that can't be had as it was chosen.
use std::fmt;

/// What mends it where a service can't listen.
#[derive(Clone, Copy)]
pub enum WayOut {
    /// Nothing is said: its command line names all.
    Unsaid,
    /// Another port than this one.
    Port(u16),
    /// Another path.
    Path,
}

impl fmt::Display for WayOut {
    fn fmt<W: fmt::Write>(&self, f: &mut fmt::Formatter<W>) -> fmt::Result {
        match self {
            WayOut::Unsaid => Ok(()),
            WayOut::Port(port) => write!(
                f,
                ": name another port than {port} behind the file, or 0 for any that is free"
            ),
            WayOut::Path => f.write_str(": name another path by --socket"),
        }
    }
}
