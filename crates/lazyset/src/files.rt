//! The files that a command names, and the process's own.
ghost use Rattle.std.specs.Prelude.{◌≡◌, IsTrue};
ghost use Rattle.lz_vault.specs.Makes.{WritesNothing};

use crate::fault::Fault;
use crate::share::{Share, is_terminal};
use crate::shown_disk::ShownDisk;
use crate::source::Source;
use lazyset_arguments::too_many_buckets;
use lz_disk::{Cause, Disk, FileDisk, Lock, LockFault};
use lz_slot::{Format, Header, read_header};
use std::fs::{File, OpenOptions};
use std::io::{ErrorKind, Read};
use std::os::fd::{AsRawFd, RawFd};
use std::os::unix::fs::{FileTypeExt, MetadataExt};
use std::rt::Files;
use std::time::Clock;
use std::{fmt, io};

// The numbers of standard input and of standard error, the last one of the three.
const INPUT: RawFd = 0;

const LAST_STANDARD: RawFd = 2;

// What is said of a lock that failed, and what a service may do then.
const NOT_LOCKED: &str = "its lock failed, so another process may have it open";

const NO_LOCK_HINT: &str = "where surely none has, give it --no-lock";

// The most bytes that one read of a file takes.
const MOST_PIECE: usize = 4_096;

/// What stands in for standard input, output and error where they are closed: else the next file that is opened would get the
/// number of one, and what the program says would be written into that file.
#[derive(Drop)]
pub struct StandIns {
    first: Option<File>,
    others: [Option<File>; 2],
}

impl StandIns {
    pub fn new<R: Files<File = File>>(rt: &R) -> StandIns {
        StandIns {
            first: open_nothing(rt),
            others: [open_nothing(rt), open_nothing(rt)],
        }
    }

    /// Whether standard input was closed.
    pub fn has_no_input(&self) -> bool {
        self.first.as_ref().map(AsRawFd::as_raw_fd) == Some(INPUT)
    }
}

// The file that holds nothing and takes everything, where there is one and it gets the number of a standard one.
fn open_nothing<R: Files<File = File>>(rt: &R) -> Option<File> {
    let mut how = OpenOptions::new();
    how.read(true).write(true);
    let file = how.open(rt, "/dev/null").ok()?;
    if file.as_raw_fd() > LAST_STANDARD {
        return None;
    }
    Some(file)
}

/// Says why a file can't be had.
pub fn no_file<R: Eprint, W: fmt::Display + Drop>(rt: &R, path: &str, why: W) -> Fault {
    let _ = eprintln!(rt; "lazyset: {path}: {why}");
    Fault::NoFile
}

/// The file at this path, as a disk, with a lock.
pub fn open<R: Files<File = File> + Eprint>(
    rt: &R,
    path: &str,
    lock: Lock,
) -> Result<FileDisk, Fault> {
    let disk = open_or_create(rt, path, false)?;
    take_lock(rt, path, &disk, lock)?;
    Ok(disk)
}

/// The same for a command that has the file to itself. With `no_lock` it goes on where a lock can't be had, and none is held by another.
pub fn open_alone<R>(rt: &R, path: &str, no_lock: bool) -> Result<FileDisk, Fault>
where
    R: Files<File = File> + Eprint,
{
    let disk = open_or_create(rt, path, false)?;
    match disk.lock(Lock::Exclusive) {
        Err(LockFault::Failed(error)) if no_lock => say_unlocked(rt, path, error),
        Err(LockFault::Failed(error)) => {
            return Err(no_file(
                rt,
                path,
                format_args!("{NOT_LOCKED}: {error}; {NO_LOCK_HINT}"),
            ));
        }
        given => see_locked(rt, path, given)?,
    }
    see_in_place(rt, path, &disk)?;
    Ok(disk)
}

/// Readies the disk of a file that a command has to itself. The file's format and slots, where its head tells them. More buckets than its
/// format allows are refused as the command line refuses a number that is out of range. In format 4 no write waits for a sync of another, so
/// those of slots side by side are gathered: a kill of the process loses what no sync has covered, as a crash does.
pub fn ready_for<R>(
    rt: &R,
    file: &str,
    disk: &mut FileDisk,
    buckets: usize,
) -> Result<Option<Header>, Fault>
where
    R: Files<File = File> + Eprint + Clock + AllocGlobal,
{
    let header = header_on(disk);
    if let Some(Header { format, .. }) = header {
        if buckets > format.most_buckets() {
            let _ = eprintln!(rt;
                "lazyset: {file}: a file of format 3 or 4 may have more buckets: renew it with --format 4"
            );
            let refusal = too_many_buckets(rt.alloc(), buckets as u64, format);
            return Err(Fault::of_refusal(refusal));
        }
        if format == Format::Four {
            disk.gather(rt.alloc());
        }
    }
    disk.watch();
    Ok(header)
}

/// Takes a lock on this file. Where the file system has no locks that is said, and it goes on without. The file has to stand at its path
/// still once it is locked: it may have been replaced meanwhile.
pub fn take_lock<R>(rt: &R, path: &str, disk: &FileDisk, lock: Lock) -> Result<(), Fault>
where
    R: Files<File = File> + Eprint,
{
    see_locked(rt, path, disk.lock(lock))?;
    see_in_place(rt, path, disk)
}

/// Whether a command may go on after this outcome of a lock. One that failed may be another's: a network file system that is ill says so
/// of a file that another machine has.
pub fn see_locked<R: Eprint>(
    rt: &R,
    path: &str,
    given: Result<(), LockFault>,
) -> Result<(), Fault> {
    match given {
        Ok(()) => Ok(()),
        Err(LockFault::Taken) => Err(no_file(rt, path, "another process has it open")),
        Err(LockFault::Failed(error)) => {
            Err(no_file(rt, path, format_args!("{NOT_LOCKED}: {error}")))
        }
        Err(LockFault::NoLocks(error)) => {
            say_unlocked(rt, path, error);
            Ok(())
        }
    }
}

fn say_unlocked<R: Eprint>(rt: &R, path: &str, error: io::Error) {
    let _ = eprintln!(rt;
        "lazyset: {path}: it can't be locked, so see that nothing else opens it: {error}"
    );
}

fn see_in_place<R>(rt: &R, path: &str, disk: &FileDisk) -> Result<(), Fault>
where
    R: Files<File = File> + Eprint,
{
    if let Ok(facts) = rt.metadata(path)
        && let Some(identity) = disk.identity()
        && identity != (facts.dev(), facts.ino())
    {
        return Err(no_file(rt, path, "another file was put in its place"));
    }
    Ok(())
}

/// Whether this disk is of the file that stands at the path now. It isn't where the system doesn't tell.
pub fn stands_at<R: Files<File = File>>(rt: &R, path: &str, disk: &FileDisk) -> bool {
    match (rt.metadata(path), disk.identity()) {
        (Ok(facts), Some(identity)) => identity == (facts.dev(), facts.ino()),
        _ => false,
    }
}

/// The file at this path, as a disk; it is created where it isn't there, and it has to be a regular one: whatever is written into a
/// block device, say, is lost there. Where a symbolic link was named it is opened again by its own path: it is the name in the
/// file's own folder that has to be durable. Its writes are gathered: nobody reads it before it is made.
pub fn create<R>(rt: &R, path: &str) -> Result<FileDisk, Fault>
where
    R: Files<File = File> + Eprint + AllocGlobal,
{
    if let Ok(facts) = rt.metadata(path)
        && !facts.is_file()
    {
        return Err(no_file(rt, path, "it isn't a regular file"));
    }
    let disk = open_or_create(rt, path, true)?;
    drop(disk);
    let itself = match rt.canonicalize(rt.alloc(), path) {
        Ok(itself) => itself,
        Err(error) => return Err(no_file(rt, path, error)),
    };
    let mut disk = open_or_create(rt, itself.as_str(), true)?;
    disk.gather(rt.alloc());
    Ok(disk)
}

/// The disk, of which it is said how much of so many bytes was read or written; where none are named, of those that it has.
pub fn shown<'a, 'b, R, D>(
    rt: &'a R,
    path: &'b str,
    disk: D,
    bytes: Option<u64>,
) -> ShownDisk<'a, 'b, R, D>
where
    R: Files<File = File> + Eprint + Clock,
    D: Disk,
    ensures { result.disk ≡ disk }
{
    let total = match (bytes, rt.metadata(path)) {
        (Some(bytes), _) => bytes,
        (None, Ok(facts)) => facts.len(),
        (None, Err(_)) => 0,
    };
    ShownDisk::new(disk, Share::new(rt, path, total, is_terminal(rt)))
}

/// How many bytes a file of so many slots has.
pub fn bytes_of(slots: u64) -> Option<u64> {
    Some(slots.saturating_mul(16).saturating_add(16))
}

/// Whether two disks are one file.
pub fn is_same(one: &FileDisk, other: &FileDisk) -> bool {
    one.identity().is_some() && one.identity() == other.identity()
}

/// The format and the slots of the file on this disk, where its head tells them. What is wrong with another file is told by its open.
pub fn header_on<D: Disk>(disk: &mut D) -> Option<Header>
    ensures { IsTrue (D.device disk.old).honest → WritesNothing (D.device disk.old) (D.device disk.new) }
{
    let mut head = [0; 16];
    let size = disk.size().ok()?;
    if size < 16 {
        return None;
    }
    disk.read(0, &mut head).ok()?;
    read_header(&head, size).ok()
}

/// Says why this file failed, where that is known.
pub fn say_cause<R: Eprint>(rt: &R, path: &str, cause: Option<Cause>) {
    if let Some(cause) = cause {
        let _ = eprintln!(rt; "lazyset: {path}: {cause}");
    }
}

/// Takes away a file into which nothing was written, itself and not a link to it.
pub fn take_away_empty<R: Files<File = File> + AllocGlobal>(rt: &R, path: &str) {
    let Ok(itself) = rt.canonicalize(rt.alloc(), path) else {
        return;
    };
    if let Ok(facts) = rt.metadata(itself.as_str())
        && facts.len() == 0
    {
        let _ = rt.remove_file(itself.as_str());
    }
}

/// Whether there is nothing at this path.
pub fn is_absent<R: Files<File = File>>(rt: &R, path: &str) -> bool {
    match rt.metadata(path) {
        Ok(_) => false,
        Err(error) => error.kind() == ErrorKind::NotFound,
    }
}

/// The file at this path, as a disk without a lock.
pub fn open_or_create<R: Files<File = File> + Eprint>(
    rt: &R,
    path: &str,
    create: bool,
) -> Result<FileDisk, Fault> {
    match FileDisk::open(rt, path, create) {
        Ok(disk) => Ok(disk),
        Err(_) => Err(match why_not(rt, path, create) {
            Some(error) => no_file(rt, path, error),
            None => no_file(rt, path, "its folder couldn't be synced"),
        }),
    }
}

// Why the file can't be opened. A disk doesn't say, so the system is asked once more.
fn why_not<R: Files<File = File>>(rt: &R, path: &str, create: bool) -> Option<io::Error> {
    let mut how = OpenOptions::new();
    how.read(true).write(true).create(create);
    how.open(rt, path).err()
}

fn open_readable<R: Files<File = File> + Eprint>(rt: &R, path: &str) -> Result<File, Fault> {
    let file = match File::open(rt, path) {
        Ok(file) => file,
        Err(error) => return Err(no_file(rt, path, error)),
    };
    match file.metadata() {
        Ok(metadata) if metadata.is_dir() => Err(no_file(rt, path, "it is a directory")),
        _ => Ok(file),
    }
}

/// The file, for reading from its beginning to its end. A directory is none, nor is a pipe, for which somebody would have to write.
pub fn open_source<'a, 'b, R>(rt: &'a R, path: &'b str) -> Result<Source<'a, 'b, R, File>, Fault>
where
    R: Files<File = File> + Eprint + Clock,
{
    if let Ok(facts) = rt.metadata(path)
        && facts.file_type().is_fifo()
    {
        return Err(no_file(rt, path, "it is a pipe"));
    }
    let file = open_readable(rt, path)?;
    let length = file.metadata().map_or(0, |facts| facts.len());
    Ok(Source::new(file, Share::new(rt, path, length, is_terminal(rt))))
}

/// The file's bytes, up to so many.
pub fn read_front<R>(rt: &R, path: &str, most: usize) -> Result<Vec<u8>, Fault>
where
    R: Files<File = File> + Eprint + AllocGlobal,
{
    let mut file = open_readable(rt, path)?;
    let mut bytes: Vec<u8> = Vec::new(rt.alloc());
    let mut piece = [0; MOST_PIECE];
    for _ in 0..u64::MAX {
        match file.read(&mut piece) {
            Ok(0) => break,
            Ok(count) => bytes.extend_from_slice(&piece[..count])?,
            Err(error) if error.kind() == ErrorKind::Interrupted => {}
            Err(error) => {
                let _ = eprintln!(rt; "lazyset: {path}: {error}");
                return Err(Fault::NoRead);
            }
        }
        if bytes.len() >= most {
            break;
        }
    }
    bytes.truncate(most);
    Ok(bytes)
}
