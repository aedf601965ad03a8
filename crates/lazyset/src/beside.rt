//! A new file that is made beside another one, and takes its name.
ghost use Rattle.std.specs.Prelude.{◌≡◌, OnErr, OnOk};

use crate::before::Before;
use crate::fault::Fault;
use crate::files::{no_file, open, take_lock};
use lazyset_set_commands::{Shelf, Standing};
use lz_disk::{DeviceFault, Disk, FileDisk, Lock};
use std::fs::{File, Metadata, OpenOptions};
use std::io;
use std::io::ErrorKind;
use std::os::unix::fs::{MetadataExt, OpenOptionsExt};
use std::path::{Path, PathBuf};
use std::rt::Files;

// Until it has the mode of the other file, nobody else may look into the new one.
const PRIVATE: u32 = 0o600;

/// A file's name, which the file beside it can take.
#[derive(Drop)]
pub struct Name<'a, R: Files<File = File>> {
    rt: &'a R,
    path: &'a str,
    beside: &'a str,
    stands: Standing,
    /// Why it wasn't given to the file beside.
    cause: Option<io::Error>,
}

impl<'a, R: Files<File = File>> Name<'a, R> {
    pub fn new(rt: &'a R, path: &'a str, beside: &'a str) -> Name<'a, R>
        ensures { result.stands ≡ Standing.Old }
    {
        Name {
            rt,
            path,
            beside,
            stands: Standing::Old,
            cause: None,
        }
    }

    /// Gives it to the file beside, durably.
    pub fn give(&mut self) -> Result<(), DeviceFault>
        ensures done { OnOk result (self.new.stands ≡ Standing.New) }
        ensures failed { OnErr result (self.new.stands ≡ Standing.Either) }
    {
        self.stands = Standing::Either;
        match self.rename() {
            Ok(()) => {
                self.stands = Standing::New;
                Ok(())
            }
            Err(error) => {
                self.cause = Some(error);
                Err(DeviceFault)
            }
        }
    }

    // One call of the system gives the name to the other file, and the sync of its folder makes that last.
    fn rename(&self) -> io::Result<()> {
        self.rt.rename(self.beside, self.path)?;
        let folder = match Path::new(self.path).parent() {
            Some(folder) => folder.as_str(),
            None => ".",
        };
        File::open(self.rt, folder)?.sync_all()
    }
}

impl<R: Files<File = File> + Eprint> Name<'_, R> {
    /// Says why the file beside wasn't given it, and takes that away then.
    pub fn end(&self) {
        let rt = self.rt;
        if let Some(error) = &self.cause {
            let path = self.path;
            let _ = eprintln!(rt; "lazyset: {path}: {error}");
        }
        if self.stands != Standing::New {
            let _ = rt.remove_file(self.beside);
        }
    }
}

impl<R: Files<File = File>> Shelf for Name<'_, R> {
    ghost stands = { λ name. name.stands };

    fn put<O: Disk, N: Disk>(&mut self, _old: &O, _new: &N) -> Result<(), DeviceFault> {
        self.give()
    }
}

/// A file that another one is to replace, under a lock. Where a link was named it is the file itself.
#[derive(Drop)]
pub struct Replaced {
    pub path: PathBuf,
    /// What the system says of it.
    pub facts: Metadata,
    pub disk: FileDisk,
}

impl Replaced {
    pub fn open<R>(rt: &R, file: &str) -> Result<Replaced, Fault>
    where
        R: Files<File = File> + Eprint + AllocGlobal,
    {
        let (path, facts) = found(rt, file)?;
        let disk = open(rt, path.as_str(), Lock::Exclusive)?;
        Ok(Replaced { path, facts, disk })
    }

    /// The same of a file whose lock this disk has. It has to stand at its path still.
    pub fn of<R>(rt: &R, file: &str, disk: FileDisk) -> Result<Replaced, Fault>
    where
        R: Files<File = File> + Eprint + AllocGlobal,
    {
        let (path, facts) = found(rt, file)?;
        take_lock(rt, path.as_str(), &disk, Lock::Exclusive)?;
        Ok(Replaced { path, facts, disk })
    }
}

// The path of the file itself, and what the system says of it.
fn found<R>(rt: &R, file: &str) -> Result<(PathBuf, Metadata), Fault>
where
    R: Files<File = File> + Eprint + AllocGlobal,
{
    let path = match rt.canonicalize(rt.alloc(), file) {
        Ok(path) => path,
        Err(error) => return Err(no_file(rt, file, error)),
    };
    let facts = facts_of(rt, path.as_str())?;
    Ok((path, facts))
}

// What the system says of the file, where it is a regular one.
fn facts_of<R: Files<File = File> + Eprint>(rt: &R, path: &str) -> Result<Metadata, Fault> {
    match rt.metadata(path) {
        Ok(facts) if facts.is_file() => Ok(facts),
        Ok(_) => Err(no_file(rt, path, "it isn't a regular file")),
        Err(error) => Err(no_file(rt, path, error)),
    }
}

/// Makes an empty file at this path, with the mode of another and its owner, where that can be given. What a command that was cut off has
/// left there is taken away first, and nothing else.
pub fn create_beside<R>(rt: &R, path: &str, facts: &Metadata) -> Result<FileDisk, Fault>
where
    R: Files<File = File> + Eprint,
{
    clear(rt, path)?;
    if let Err(error) = create_alike(rt, path, facts) {
        return Err(no_file(rt, path, error));
    }
    let disk = match FileDisk::open(rt, path, true) {
        Ok(disk) => disk,
        Err(_) => return Err(no_file(rt, path, "its folder couldn't be synced")),
    };
    take_lock(rt, path, &disk, Lock::Exclusive)?;
    Ok(disk)
}

// Takes away an empty file or one of a set, made or begun.
fn clear<R: Files<File = File> + Eprint>(rt: &R, path: &str) -> Result<(), Fault> {
    match rt.symlink_metadata(path) {
        Ok(facts) if facts.is_file() => {}
        Ok(_) => return Err(no_file(rt, path, "it isn't a regular file")),
        Err(error) if error.kind() == ErrorKind::NotFound => return Ok(()),
        Err(error) => return Err(no_file(rt, path, error)),
    }
    let Ok(mut disk) = FileDisk::open(rt, path, false) else {
        return Err(no_file(rt, path, "it can't be read"));
    };
    Before::on(&mut disk).see_free(rt, path)?;
    match rt.remove_file(path) {
        Ok(()) => Ok(()),
        Err(error) => Err(no_file(rt, path, error)),
    }
}

fn create_alike<R>(rt: &R, path: &str, facts: &Metadata) -> io::Result<()>
where
    R: Files<File = File> + Eprint,
{
    let mut how = OpenOptions::new();
    how.write(true).create_new(true).mode(PRIVATE);
    drop(how.open(rt, path)?);
    if let Err(error) = rt.chown(path, Some(facts.uid()), Some(facts.gid())) {
        let _ = eprintln!(rt; "lazyset: {path}: the owner of the old file isn't kept: {error}");
    }
    rt.set_permissions(path, facts.permissions())
}
