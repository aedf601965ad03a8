//! Sockets that listen at a path, for their owner alone where no other mode is named.
use libc::net::{POLLIN, poll};
use libc::types::pollfd;
use mio::net::UnixStream;
use std::fs::{File, Permissions};
use std::io;
use std::io::ErrorKind;
use std::net::Net;
use std::os::fd::{AsFd, AsRawFd};
use std::os::unix::fs::{FileTypeExt, MetadataExt, PermissionsExt};
use std::os::unix::net::{SocketAddr, UnixListener};
use std::rt::Files;

// Its owner alone may connect.
const MODE: u32 = 0o600;

/// Listens at this path, where nobody does, with so many who may wait. What a service that was killed has left there is taken away. The file
/// has the mode that was named before anybody may connect.
pub fn listen_at<R>(rt: &R, path: &str, mode: Option<u32>, backlog: i32) -> io::Result<UnixListener>
where
    R: Files<File = File> + Net,
{
    take_away(rt, path)?;
    let socket = rt.unix_socket()?;
    // The file gets the mode that the socket has before it, less the umask.
    done(libc::fchmod(socket.as_raw_fd(), MODE))?;
    rt.bind_unix(socket.as_fd(), &SocketAddr::from_pathname(path)?)?;
    if let Some(mode) = mode {
        set_mode(rt, path, mode)?;
    }
    done(libc::net::listen(socket.as_raw_fd(), backlog))?;
    Ok(UnixListener::from(socket))
}

// Gives the socket at this path its mode. Where it can't have that it is taken away.
fn set_mode<R: Files<File = File>>(rt: &R, path: &str, mode: u32) -> io::Result<()> {
    let set = rt.set_permissions(path, Permissions::from_mode(mode));
    if set.is_err() {
        let _ = rt.remove_file(path);
    }
    set
}

/// Whether somebody waits there to be accepted.
pub fn has_waiting<L: AsRawFd>(listener: &L) -> bool {
    let mut asked = [pollfd {
        fd: listener.as_raw_fd(),
        events: POLLIN,
        revents: 0,
    }];
    poll(&mut asked, 0) > 0
}

// What a call of the system has come to.
fn done(status: i32) -> io::Result<()> {
    if status == 0 {
        return Ok(());
    }
    Err(io::Error::from(ErrorKind::Other))
}

// Takes away the socket at this path, where the system says that nobody listens there.
fn take_away<R: Files<File = File> + Net>(rt: &R, path: &str) -> io::Result<()> {
    let Ok(facts) = rt.symlink_metadata(path) else {
        return Ok(());
    };
    if !facts.file_type().is_socket() {
        return Err(io::Error::from(ErrorKind::AddrInUse));
    }
    // It doesn't wait where who listens there is busy.
    match UnixStream::connect(rt, path) {
        Err(error) if error.kind() == ErrorKind::ConnectionRefused => rt.remove_file(path),
        _ => Err(io::Error::from(ErrorKind::AddrInUse)),
    }
}

/// The file of a socket, by which it is known again.
#[derive(Clone, Copy)]
pub struct SocketFile<'a> {
    path: &'a str,
    identity: (u64, u64),
}

impl<'a> SocketFile<'a> {
    /// The one at this path now.
    pub fn at<R: Files<File = File>>(rt: &R, path: &'a str) -> Option<SocketFile<'a>> {
        Some(SocketFile {
            path,
            identity: identity_of(rt, path)?,
        })
    }

    /// Removes it, unless another file has its path meanwhile.
    pub fn remove<R: Files<File = File>>(&self, rt: &R) {
        if identity_of(rt, self.path) == Some(self.identity) {
            let _ = rt.remove_file(self.path);
        }
    }
}

// The device and the number of the file at this path.
fn identity_of<R: Files<File = File>>(rt: &R, path: &str) -> Option<(u64, u64)> {
    let facts = rt.symlink_metadata(path).ok()?;
    Some((facts.dev(), facts.ino()))
}
