//! What the lease of a service holds on to: its file, and a clock that goes on while the machine sleeps.
use libc::types::timespec;
use lz_disk::FileDisk;
use lz_serve::{Lease, Tether};
use os::FromRawFd;
use std::alloc::Global;
use std::fs::File;
use std::io;
use std::io::ErrorKind;
use std::os::fd::{AsRawFd, IntoRawFd, OwnedFd, RawFd};
use std::os::unix::fs::MetadataExt;
use std::rt::Files;

// The number of the clock that counts the time of a suspended machine too (clock_gettime(2)).
const BOOTTIME: i32 = 7;

// Among these descriptors the file's is sought: the first three are each process's.
const FIRST: RawFd = 3;

const LAST: RawFd = 1_023;

/// Another descriptor of the open file that the set has, and so of its lock: a sync there fails where a volume has given that lock away.
/// It tells the set nothing. The system may tell it of an earlier write's failure, and then not the set's next sync: but where it
/// fails nothing more is sent.
#[derive(Drop)]
pub struct Moored {
    file: OwnedFd,
}

impl Moored {
    // That of this disk's open file, where that is found among the descriptors of this process.
    fn of<R: Files<File = File>>(rt: &R, alloc: Global, disk: &FileDisk) -> io::Result<Moored> {
        let Some(identity) = disk.identity() else {
            return Err(io::Error::from(ErrorKind::NotFound));
        };
        for number in FIRST..=LAST {
            if identity_of(rt, alloc, number) == Some(identity) {
                return same_as(number);
            }
        }
        Err(io::Error::from(ErrorKind::NotFound))
    }
}

// Which file this descriptor is of, if it is open.
fn identity_of<R: Files<File = File>>(rt: &R, alloc: Global, number: RawFd) -> Option<(u64, u64)> {
    let path = format!(in alloc; "/proc/self/fd/{number}").ok()?;
    let facts = rt.metadata(path.as_str()).ok()?;
    Some((facts.dev(), facts.ino()))
}

// Another descriptor of the open file that this one is of, which isn't closed.
fn same_as(number: RawFd) -> io::Result<Moored> {
    if number < 0 {
        return Err(io::Error::from(ErrorKind::NotFound));
    }
    let lent = unsafe { OwnedFd::from_raw_fd(number) };
    let same = lent.try_clone();
    let _ = lent.into_raw_fd();
    match same {
        Ok(file) => Ok(Moored { file }),
        Err(error) => Err(error),
    }
}

impl Tether for Moored {
    ghost use Rattle.std.specs.Prelude.{true};

    ghost told = { λ _. true };

    ghost touched = { λ _. true };

    ghost told_since = { λ _ _. true };

    fn now(&self) -> Option<u64> {
        now()
    }

    fn touch(&self, _began: u64) -> io::Result<()> {
        'tries: for _ in 0..u64::MAX {
            if libc::fdatasync(self.file.as_raw_fd()) == 0 {
                return Ok(());
            }
            let error = io::Error::from_raw_os_error(os::errno());
            if error.kind() != ErrorKind::Interrupted {
                return Err(error);
            }
        }
        Err(io::Error::from(ErrorKind::Interrupted))
    }

    fn now_since(&self, _began: u64) -> Option<u64> {
        now()
    }
}

// The time since the machine was started, in milliseconds.
fn now() -> Option<u64> {
    let mut time = timespec {
        tv_sec: 0,
        tv_nsec: 0,
    };
    if libc::clock_gettime(BOOTTIME, &mut time) != 0 {
        return None;
    }
    let seconds = u64::try_from(time.tv_sec).ok()?;
    let nanos = u64::try_from(time.tv_nsec).ok()?;
    seconds.checked_mul(1_000)?.checked_add(nanos / 1_000_000)
}

/// The lease of a service of the file on this disk, which has no second descriptor yet: of so many milliseconds, or none.
pub fn lease_of<R>(rt: &R, disk: &FileDisk, millis: Option<u64>) -> io::Result<Lease<Moored>>
where
    R: Files<File = File> + AllocGlobal,
{
    let Some(millis) = millis else {
        return Ok(Lease::none());
    };
    match Moored::of(rt, rt.alloc(), disk) {
        Ok(moored) => Ok(Lease::new(moored, millis)),
        Err(error) => Err(error),
    }
}
