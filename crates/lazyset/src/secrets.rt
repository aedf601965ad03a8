//! The secret of texts, out of its file.
use crate::fault::Fault;
use lazyset_arguments::Request;
use lz_resp::{FEWEST_SECRET, MOST_SECRET, Secret};
use std::alloc::Global;
use std::fs::{File, Metadata};
use std::os::unix::fs::{FileExt, MetadataExt};
use std::rt::Files;
use std::{fmt, io};

// The bits of a mode by which others than the file's user may have it.
const OTHERS: u32 = 0o077;

/// Why a secret can't be had.
#[derive(Debug, Drop)]
enum NoSecret {
    System(io::Error),
    Memory,
    NoFile,
    /// It is another user's.
    Foreign,
    /// Others may have it, by this mode.
    Open(u32),
    Length,
    /// Its last byte is zero.
    Zero,
}

impl fmt::Display for NoSecret {
    fn fmt<W: fmt::Write>(&self, f: &mut fmt::Formatter<W>) -> fmt::Result {
        match self {
            NoSecret::System(error) => write!(f, "{error}"),
            NoSecret::Memory => f.write_str("out of memory"),
            NoSecret::NoFile => f.write_str("it is no regular file"),
            NoSecret::Foreign => f.write_str("it is another user's"),
            NoSecret::Open(mode) => {
                write!(
                    f,
                    "its mode is {mode:04o}, so others may have it: chmod 600"
                )
            }
            NoSecret::Length => write!(f, "a secret has {FEWEST_SECRET} to {MOST_SECRET} bytes"),
            NoSecret::Zero => f.write_str(
                "its last byte is zero: zeros there would change nothing",
            ),
        }
    }
}

/// The secret that a command's line names by this path, if it names one. It lives as long as the process.
pub fn secret_of<R>(
    rt: &R,
    request: Request<'_>,
    path: Option<&str>,
) -> Result<Option<&'static Secret>, Fault>
where
    R: Files<File = File> + Eprint + AllocGlobal,
{
    let Some(path) = path else {
        return Ok(None);
    };
    match secret_at(rt, path) {
        Ok(secret) => Ok(Some(secret)),
        Err(why) => {
            let _ = eprintln!(rt; "lazyset: {request}: --secret {path}: {why}");
            Err(Fault::NoSecret)
        }
    }
}

// The secret at this path. What is no regular file isn't opened, as that might wait.
fn secret_at<R>(rt: &R, path: &str) -> Result<&'static Secret, NoSecret>
where
    R: Files<File = File> + AllocGlobal,
{
    see_own(&rt.metadata(path).map_err(NoSecret::System)?)?;
    let file = File::open(rt, path).map_err(NoSecret::System)?;
    see_own(&file.metadata().map_err(NoSecret::System)?)?;
    let mut bytes = [0; MOST_SECRET + 1];
    let count = file.read_at(&mut bytes, 0).map_err(NoSecret::System)?;
    kept(rt.alloc(), &bytes[..count])
}

// Sees that this user's file is nobody else's to have.
fn see_own(facts: &Metadata) -> Result<(), NoSecret> {
    let mode = facts.mode() & 0o7777;
    if !facts.is_file() {
        Err(NoSecret::NoFile)
    } else if facts.uid() != libc::geteuid() {
        Err(NoSecret::Foreign)
    } else if mode & OTHERS != 0 {
        Err(NoSecret::Open(mode))
    } else {
        Ok(())
    }
}

// The secret of these bytes, in a block that is never given back.
fn kept(alloc: Global, bytes: &[u8]) -> Result<&'static Secret, NoSecret> {
    let Some(secret) = Secret::new(bytes) else {
        return Err(if (FEWEST_SECRET..=MOST_SECRET).contains(&bytes.len()) {
            NoSecret::Zero
        } else {
            NoSecret::Length
        });
    };
    match Box::new(alloc, secret) {
        Ok(kept) => Ok(Box::leak(kept)),
        Err(_) => Err(NoSecret::Memory),
    }
}
