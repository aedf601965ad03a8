//! The system's file.
ghost use Rattle.std.specs.Prelude.{◌≡◌, ◌+◌, false, true, IsErr, None, OnOk, OnErr};
ghost use Rattle.lz_disk.specs.Devices.{IsCall};
ghost use Rattle.lz_disk.specs.Files.{IsLoss};

use crate::tally::Tally;
use crate::{DeviceFault, Disk};
use libc::{POSIX_FADV_DONTNEED, posix_fadvise};
use std::fs::{File, Files, OpenFile, OpenOptions, TryLockError};
use std::os::fd::AsRawFd;
use std::os::unix::fs::{FileExt, MetadataExt};
use std::path::Path;
use std::{fmt, io};

// The system takes offsets below 2^63.
const END_OF_OFFSETS: u64 = 1 << 63;

// The system's numbers for a call that it hasn't, and for one that a file hasn't (errno(3)).
const NO_SUCH_CALL: i32 = 38;

const NOT_SUPPORTED: i32 = 95;

/// Why a file failed as a device.
#[derive(Clone, Copy, Debug, PartialEq, Eq)]
pub enum Cause {
    /// The system's number for it.
    System(i32),
    /// It has no name any more.
    Deleted,
    /// It was cut, or made longer.
    Length,
}

impl fmt::Display for Cause {
    fn fmt<W: fmt::Write>(&self, f: &mut fmt::Formatter<W>) -> fmt::Result {
        match *self {
            Cause::System(number) => write!(f, "{}", io::Error::from_raw_os_error(number)),
            Cause::Deleted => f.write_str("the file was deleted, or another one put in its place"),
            Cause::Length => f.write_str("the file's length was changed"),
        }
    }
}

/// Whom a lock lets have the file besides.
#[derive(Clone, Copy, Debug, PartialEq, Eq)]
pub enum Lock {
    /// Nobody.
    Exclusive,
    /// Others who only read it.
    Shared,
}

/// Why a lock wasn't had.
#[derive(Debug, Drop)]
pub enum LockFault {
    /// Another process has the file.
    Taken,
    /// The file system has no locks.
    NoLocks(io::Error),
    /// It has some, and this one failed: another process may have the file.
    Failed(io::Error),
}

/// The system's file. No contract can say what it keeps, so by definition it isn't honest, and of its bytes nothing is proved. That it and
/// what lies below it keep to the model is the premise of whoever stores in one: what stands above is proved over any honest file.
#[derive(Drop)]
pub struct SystemFile {
    file: File,
    /// What is read of it comes from its device, but for what this process has written.
    is_fresh: bool,
    /// How long it stays, where that is watched.
    length: Option<u64>,
    /// It was looked at since the last sync.
    was_seen: bool,
    /// What has become of it, once that was seen: it fails from then on.
    loss: Option<Cause>,
    /// Why it failed last.
    cause: Option<Cause>,
    calls: Tally,
    failures: Tally,
}

impl SystemFile {
    /// Opens the file for reading and writing. With `create` it makes the file where there is none, and makes its
    /// name durable either way, since an earlier process may have stopped before it had. A folder in its place is a fault.
    pub(crate) fn open<R: Files<File = File>>(
        rt: &R,
        path: &str,
        create: bool,
    ) -> Result<SystemFile, DeviceFault> {
        match open_file(rt, path, create) {
            Ok(file) => Ok(SystemFile {
                file,
                is_fresh: false,
                length: None,
                was_seen: false,
                loss: None,
                cause: None,
                calls: Tally::new(),
                failures: Tally::new(),
            }),
            Err(_) => Err(DeviceFault),
        }
    }

    pub(crate) fn cause(&self) -> Option<Cause> {
        self.cause
    }

    pub(crate) fn lock(&self, lock: Lock) -> Result<(), LockFault> {
        let taken = match lock {
            Lock::Exclusive => self.file.try_lock(),
            Lock::Shared => self.file.try_lock_shared(),
        };
        match taken {
            Ok(()) => Ok(()),
            Err(TryLockError::WouldBlock) => Err(LockFault::Taken),
            Err(TryLockError::Error(error)) => Err(fault_of(error)),
        }
    }

    pub(crate) fn identity(&self) -> Option<(u64, u64)> {
        let facts = self.file.metadata().ok()?;
        Some((facts.dev(), facts.ino()))
    }

    pub(crate) fn watch(&mut self)
        ensures failures { self.new.failures.count ≡ self.old.failures.count }
        ensures calls { self.new.calls.count ≡ self.old.calls.count }
        ensures loss { self.new.loss ≡ self.old.loss }
    {
        self.length = match self.file.metadata() {
            Ok(facts) => Some(facts.len()),
            Err(_) => None,
        };
    }

    // Counts a call. It fails where the file was seen to be lost.
    fn begin(&mut self) -> Result<(), DeviceFault>
        ensures calls { self.new.calls.count ≡ self.old.calls.count + 1 }
        ensures ok { OnOk result (self.new.failures.count ≡ self.old.failures.count) }
        ensures err { OnErr result (self.new.failures.count ≡ self.old.failures.count + 1) }
        ensures lost { OnOk result (self.old.loss ≡ None) }
        ensures loss { self.new.loss ≡ self.old.loss }
    {
        self.calls.count_one();
        match self.loss {
            None => Ok(()),
            Some(cause) => Err(self.fail(Some(cause))),
        }
    }

    // Looks at a file that is watched. Where it isn't as it was it is lost from then on.
    fn look(&mut self) -> Result<(), DeviceFault>
        requires { self.old.loss ≡ None }
        ensures calls { self.new.calls.count ≡ self.old.calls.count }
        ensures ok { OnOk result (self.new.failures.count ≡ self.old.failures.count) }
        ensures err { OnErr result (self.new.failures.count ≡ self.old.failures.count + 1) }
        ensures seen { self.new.was_seen ≡ true }
        ensures fresh { self.new.is_fresh ≡ self.old.is_fresh }
        ensures lost { OnErr result (IsLoss self.new.cause → self.new.loss ≡ self.new.cause) }
    {
        self.was_seen = true;
        match self.find_loss() {
            Ok(None) => Ok(()),
            Ok(Some(cause)) => {
                self.loss = Some(cause);
                Err(self.fail(Some(cause)))
            }
            Err(error) => Err(self.fail(error.raw_os_error().map(Cause::System))),
        }
    }

    // Has the system forget what it keeps of the file: after a sync that failed, perhaps another process's, it may keep bytes that never
    // got to the device, and take them for synced.
    fn freshen(&mut self)
        ensures failures { self.new.failures.count ≡ self.old.failures.count }
        ensures calls { self.new.calls.count ≡ self.old.calls.count }
        ensures loss { self.new.loss ≡ self.old.loss }
        ensures fresh { self.new.is_fresh ≡ true }
    {
        if !self.is_fresh {
            posix_fadvise(self.file.as_raw_fd(), 0, 0, POSIX_FADV_DONTNEED);
        }
        self.is_fresh = true;
    }

    // What has become of a file that is watched.
    fn find_loss(&self) -> io::Result<Option<Cause>> {
        let Some(length) = self.length else {
            return Ok(None);
        };
        let facts = self.file.metadata()?;
        Ok(if facts.nlink() == 0 {
            Some(Cause::Deleted)
        } else if facts.len() != length {
            Some(Cause::Length)
        } else {
            None
        })
    }

    fn fail(&mut self, cause: Option<Cause>) -> DeviceFault
        ensures failures { self.new.failures.count ≡ self.old.failures.count + 1 }
        ensures calls { self.new.calls.count ≡ self.old.calls.count }
        ensures loss { self.new.loss ≡ self.old.loss }
        ensures seen { self.new.was_seen ≡ self.old.was_seen }
        ensures fresh { self.new.is_fresh ≡ self.old.is_fresh }
        ensures cause { self.new.cause ≡ cause }
    {
        self.failures.count_one();
        self.cause = cause;
        DeviceFault
    }

    fn outcome<T: Drop>(&mut self, given: io::Result<T>) -> Result<T, DeviceFault>
        ensures ok { OnOk result (self.new.failures.count ≡ self.old.failures.count) }
        ensures err { OnErr result (self.new.failures.count ≡ self.old.failures.count + 1) }
        ensures calls { self.new.calls.count ≡ self.old.calls.count }
        ensures loss { self.new.loss ≡ self.old.loss }
        ensures seen { self.new.was_seen ≡ self.old.was_seen }
    {
        match given {
            Ok(value) => Ok(value),
            Err(error) => Err(self.fail(error.raw_os_error().map(Cause::System))),
        }
    }
}

fn open_file<R: Files<File = File>>(rt: &R, path: &str, create: bool) -> io::Result<File> {
    let file = OpenOptions::new()
        .read(true)
        .write(true)
        .create(create)
        .open(rt, path)?;
    if create {
        let folder = OpenOptions::new().read(true).open(rt, folder_of(path))?;
        folder.sync_all()?;
    }
    Ok(file)
}

fn folder_of(path: &str) -> &str {
    match Path::new(path).parent() {
        Some(folder) if !folder.as_str().is_empty() => folder.as_str(),
        _ => ".",
    }
}

// Only these numbers say that nobody can have a lock there: a file system that is ill has others.
fn fault_of(error: io::Error) -> LockFault {
    match error.raw_os_error() {
        Some(NO_SUCH_CALL | NOT_SUPPORTED) => LockFault::NoLocks(error),
        _ => LockFault::Failed(error),
    }
}

fn has_offsets(at: u64, len: usize) -> bool {
    at < END_OF_OFFSETS && len as u64 <= END_OF_OFFSETS - at
}

impl Disk for SystemFile {
    ghost use Rattle.lz_disk.specs.Files.{file_device, file_timely};

    ghost device = { λ file. file_device file.calls.count file.failures.count file.loss };

    ghost timely = { λ file honest. file_timely file.calls.count file.failures.count file.loss honest };

    fn size(&mut self) -> Result<u64, DeviceFault> {
        self.begin()?;
        let given = self.file.metadata();
        Ok(self.outcome(given)?.len())
    }

    fn read(&mut self, at: u64, buffer: &mut [u8]) -> Result<(), DeviceFault> {
        self.begin()?;
        if !has_offsets(at, buffer.len()) {
            return Err(self.fail(None));
        }
        let given = self.file.read_exact_at(buffer, at);
        self.outcome(given)
    }

    /// Before the first write since a sync a file that is watched is looked at: one that was cut would be as long again by a write.
    fn write(&mut self, at: u64, bytes: &[u8]) -> Result<(), DeviceFault>
        ensures call { let device = ⟦<SystemFile as Disk>⟧.device in IsCall (device self.old) (device self.new) (IsErr result) }
        ensures seen { OnOk result (self.new.was_seen ≡ true) }
    {
        self.begin()?;
        if !has_offsets(at, bytes.len()) {
            return Err(self.fail(None));
        }
        if !self.was_seen {
            self.look()?;
        }
        let given = self.file.write_all_at(bytes, at);
        self.outcome(given)
    }

    /// Asks the system to make the file's bytes and its length durable, but not its times, which nobody reads here and which cost
    /// most file systems a write of their own at each sync. A making's last sync needs no more either: the name in its folder
    /// `open` made durable before anything was written. After the first one, with which an open begins, what is read comes from the
    /// device. It fails as well where a file that is watched isn't as it was.
    fn sync(&mut self) -> Result<(), DeviceFault>
        ensures call { let device = ⟦<SystemFile as Disk>⟧.device in IsCall (device self.old) (device self.new) (IsErr result) }
        ensures unseen { OnOk result (self.new.was_seen ≡ false) }
        ensures fresh { OnOk result (self.new.is_fresh ≡ true) }
    {
        self.begin()?;
        let given = self.file.sync_data();
        self.outcome(given)?;
        self.freshen();
        self.look()?;
        self.was_seen = false;
        Ok(())
    }
}
