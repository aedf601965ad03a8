//! How a service writes the lines of its log.
use crate::level::{Level, is_journal};
use crate::moment::Moment;
use std::fmt;
use std::rt::{Env, Files};
use std::time::Clock;

/// What stands before the lines of a log.
#[derive(Clone, Copy)]
pub struct Lines {
    /// Before each line its level.
    has_levels: bool,
    /// Before each line that names the file its time.
    has_times: bool,
}

impl Lines {
    /// Where no journal has the time of each line, the log of loops has it.
    pub fn of<R: Env + Files + AllocGlobal>(rt: &R, has_loops: bool) -> Lines {
        let has_levels = is_journal(rt);
        Lines {
            has_levels,
            has_times: has_loops && !has_levels,
        }
    }

    /// Says this of the file. Where it can't be written nothing changes.
    pub fn say<R, W>(self, rt: &R, file: &str, level: Level, words: W)
    where
        R: Eprint + Clock,
        W: fmt::Display + Drop,
    {
        if self.has_times {
            let now = Moment::now(rt);
            self.write(rt, level, format_args!("{now} {file}: {words}"));
        } else {
            self.write(rt, level, format_args!("{file}: {words}"));
        }
    }

    /// Writes this line, without a time.
    pub fn write<R: Eprint, W: fmt::Display + Drop>(self, rt: &R, level: Level, line: W) {
        let before = if self.has_levels { level.prefix() } else { "" };
        let _ = eprintln!(rt; "{before}{line}");
    }
}
