//! How weighty a line of the log is.
use std::env;
use std::os::unix::fs::MetadataExt;
use std::rt::{Env, Files};

/// How weighty a line is.
#[derive(Clone, Copy)]
pub enum Level {
    Error,
    Warning,
    Notice,
    Info,
}

impl Level {
    /// How the system's journal wants it told, before the line (sd-daemon(3)).
    pub fn prefix(self) -> &'static str {
        match self {
            Level::Error => "<3>",
            Level::Warning => "<4>",
            Level::Notice => "<5>",
            Level::Info => "<6>",
        }
    }
}

/// Whether the system's journal reads standard error: the variable JOURNAL_STREAM names it by its device and its file.
pub fn is_journal<R: Env + Files + AllocGlobal>(rt: &R) -> bool {
    let Ok(named) = env::var(rt, "JOURNAL_STREAM") else {
        return false;
    };
    let Ok(facts) = rt.metadata("/proc/self/fd/2") else {
        return false;
    };
    let Some((device, file)) = named.as_str().split_once(':') else {
        return false;
    };
    device.parse::<u64>().ok() == Some(facts.dev()) && file.parse::<u64>().ok() == Some(facts.ino())
}
