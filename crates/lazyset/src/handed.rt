//! A listening socket that systemd hands to the service (sd_listen_fds(3)).
use libc::net::{POLLERR, POLLHUP, POLLIN, POLLNVAL, POLLOUT, poll};
use libc::types::pollfd;
use os::FromRawFd;
use std::net::{SocketAddr, TcpListener, TcpStream};
use std::os::fd::{OwnedFd, RawFd};
use std::rt::Env;
use std::time::Duration;
use std::{env, io};

// The number of the first descriptor that is handed over.
const FIRST: RawFd = 3;

// For how many seconds a connection is waited for at a time. The socket is systemd's too, so no wait is ended by shutting it down.
const PATIENCE_S: u64 = 1;

/// The listener that was handed to this process, where one was: the variable LISTEN_PID is the process's number, and LISTEN_FDS is 1.
pub fn handed<R: Env + AllocGlobal>(rt: &R) -> Option<io::Result<TcpListener>> {
    let process = env::var(rt, "LISTEN_PID").ok()?;
    if process.parse::<i32>().ok() != Some(libc::getpid()) {
        return None;
    }
    let count = env::var(rt, "LISTEN_FDS").ok()?;
    if count.as_str() != "1" {
        return Some(Err(io::Error::other("LISTEN_FDS isn't 1, and one socket is served")));
    }
    Some(take())
}

// The listener of that number.
fn take() -> io::Result<TcpListener> {
    if !may_listen() {
        return Err(no_listener());
    }
    let listener = unsafe { TcpListener::from_raw_fd(FIRST) };
    let same = TcpStream::from(OwnedFd::from(listener.try_clone()?));
    // Only a TCP socket has this, and only one that is connected has a peer.
    if same.nodelay().is_err() || same.peer_addr().is_ok() {
        return Err(no_listener());
    }
    same.set_read_timeout(Some(Duration::from_secs(PATIENCE_S)))?;
    // Who had it before may have left it so.
    listener.set_nonblocking(false)?;
    Ok(listener)
}

fn no_listener() -> io::Error {
    io::Error::other("descriptor 3 is no listening TCP socket")
}

// Whether a socket may listen there: one that does is never ready to be written, and one that isn't even connected has hung up.
fn may_listen() -> bool {
    let mut asked = [pollfd {
        fd: FIRST,
        events: POLLIN | POLLOUT,
        revents: 0,
    }];
    poll(&mut asked, 0) >= 0 && asked[0].revents & (POLLOUT | POLLHUP | POLLERR | POLLNVAL) == 0
}

/// Whether the listener that was handed over is one of IPv6.
pub fn is_of_six(handed: &Option<io::Result<TcpListener>>) -> bool {
    match handed {
        Some(Ok(listener)) => matches!(listener.local_addr(), Ok(SocketAddr::V6(_))),
        _ => false,
    }
}
