//! The share of long work that is done, said on a terminal.
use std::fs::File;
use std::io::IsTerminal;
use std::os::unix::fs::FileTypeExt;
use std::rt::Files;
use std::time::Clock;

// Standard output and standard error, as files.
const OUTPUT: &str = "/proc/self/fd/1";

const ERROR: &str = "/proc/self/fd/2";

/// Says on standard error, where that is a terminal, which share of a file was read or written, or of a service asked: once a second, from
/// the first whole second on.
#[derive(Drop)]
pub struct Share<'a, 'b, R: Eprint + Clock> {
    rt: &'a R,
    file: &'b str,
    is_shown: bool,
    /// How many bytes or slots there are, and how many were moved.
    total: u64,
    moved: u64,
    /// In which second it was looked at last, and whether something stands in the line.
    second: Option<u64>,
    stands: bool,
}

impl<'a, 'b, R: Eprint + Clock> Share<'a, 'b, R> {
    /// The share of so many bytes of this file.
    pub fn new(rt: &'a R, file: &'b str, total: u64, is_shown: bool) -> Share<'a, 'b, R> {
        Share {
            rt,
            file,
            is_shown,
            total,
            moved: 0,
            second: None,
            stands: false,
        }
    }

    /// There are so many in all.
    pub fn of_total(&mut self, total: u64) {
        self.total = total;
    }

    /// So many more were moved.
    pub fn add(&mut self, count: usize) {
        self.reach(self.moved.saturating_add(count as u64));
    }

    /// So many were moved in all.
    pub fn reach(&mut self, moved: u64) {
        if !self.is_shown {
            return;
        }
        self.moved = moved;
        if self.moved >= self.total {
            self.end();
            return;
        }
        let Ok(now) = self.rt.monotonic() else {
            return;
        };
        let second = Some(now.as_secs());
        if self.second.is_some() && self.second != second {
            self.say();
        }
        self.second = second;
    }

    fn say(&mut self) {
        let percent = self
            .moved
            .saturating_mul(100)
            .checked_div(self.total)
            .unwrap_or(0);
        let file = self.file;
        self.stands = eprint!(self.rt; "\r{file}: {percent} %\u{1b}[K").is_ok();
    }

    /// The work is done: the line is empty again, and nothing more is said.
    pub fn end(&mut self) {
        if self.stands {
            let _ = eprint!(self.rt; "\r\u{1b}[K");
        }
        self.stands = false;
        self.is_shown = false;
    }
}

/// Whether standard error is a terminal.
pub fn is_terminal<R: Files<File = File>>(rt: &R) -> bool {
    is_terminal_at(rt, ERROR)
}

/// Whether standard output is a terminal too: what both are told would stand there twice.
pub fn are_terminals<R: Files<File = File>>(rt: &R) -> bool {
    is_terminal_at(rt, OUTPUT) && is_terminal(rt)
}

fn is_terminal_at<R: Files<File = File>>(rt: &R, path: &str) -> bool {
    match rt.metadata(path) {
        Ok(facts) if facts.file_type().is_char_device() => match File::open(rt, path) {
            Ok(file) => file.is_terminal(),
            Err(_) => false,
        },
        _ => false,
    }
}
