//! A file that a command makes: what stood there, and what is left where it isn't made.
use crate::before::Before;
use crate::fault::Fault;
use crate::files::{create, is_absent, is_same, say_cause, take_away_empty, take_lock};
use lazyset_set_commands::Status;
use lz_disk::{FileDisk, Lock};
use std::fs::File;
use std::rt::Files;

/// A file that is being made.
#[derive(Clone, Copy)]
pub struct Making<'a> {
    path: &'a str,
    was_absent: bool,
    before: Before,
}

impl<'a> Making<'a> {
    /// The file at this path, under a lock, as a disk on which it is to be made. It may be made of the keys on another disk: a file isn't kept
    /// away from itself, and is refused for what it is.
    pub fn begin<R>(
        rt: &R,
        path: &'a str,
        of: Option<&FileDisk>,
    ) -> Result<(Making<'a>, FileDisk), Fault>
    where
        R: Files<File = File> + Eprint + AllocGlobal,
    {
        let was_absent = is_absent(rt, path);
        let mut disk = create(rt, path)?;
        let is_itself = match of {
            Some(old) => is_same(old, &disk),
            None => false,
        };
        if !is_itself {
            take_lock(rt, path, &disk, Lock::Exclusive)?;
        }
        let making = Making {
            path,
            was_absent,
            before: Before::on(&mut disk),
        };
        Ok((making, disk))
    }

    /// The same for a command that takes no other file's bytes away.
    pub fn begin_free<R>(rt: &R, path: &'a str) -> Result<(Making<'a>, FileDisk), Fault>
    where
        R: Files<File = File> + Eprint + AllocGlobal,
    {
        let (making, disk) = Making::begin(rt, path, None)?;
        making.before.see_free(rt, path)?;
        Ok((making, disk))
    }

    /// It has ended so. Says why it failed, or what was written over. One that wasn't done leaves no file where there was none, unless
    /// something was written into it.
    pub fn end<R>(self, rt: &R, disk: &FileDisk, status: Status) -> Status
    where
        R: Files<File = File> + Eprint + AllocGlobal,
    {
        say_cause(rt, self.path, disk.cause());
        if status == Status::Done {
            self.say_before(rt);
        } else if self.was_absent {
            take_away_empty(rt, self.path);
        }
        status
    }

    fn say_before<R: Eprint>(self, rt: &R) {
        let path = self.path;
        let _ = match self.before {
            Before::Nothing => Ok(()),
            Before::Set(size) => {
                eprintln!(rt;
                    "lazyset: {path}: {size} bytes were written over, a set's but for the first one"
                )
            }
            Before::Others(1) => {
                eprintln!(rt; "lazyset: {path}: 1 byte was written over, which was no set")
            }
            Before::Others(size) => {
                eprintln!(rt; "lazyset: {path}: {size} bytes were written over, which were no set")
            }
        };
    }
}
