//! What a service listens on.
use std::io;
use std::net::{Shutdown, TcpListener, TcpStream};
use std::os::fd::{AsRawFd, OwnedFd, RawFd};
use std::os::unix::net::UnixListener;

/// A socket that listens.
#[derive(Drop)]
pub enum Listener {
    /// On a port.
    Port(TcpListener),
    /// At a path, for the clients of this machine.
    Path(UnixListener),
}

impl Listener {
    /// The next connection. What is asked of a stream is the same for both kinds, but for a delay of its replies, which one at a path
    /// hasn't.
    pub fn accept(&self) -> io::Result<TcpStream> {
        match self {
            Listener::Port(listener) => {
                let (stream, _) = listener.accept()?;
                Ok(stream)
            }
            Listener::Path(listener) => {
                let (stream, _) = listener.accept()?;
                Ok(TcpStream::from(OwnedFd::from(stream)))
            }
        }
    }

    /// The same socket once more.
    pub fn try_clone(&self) -> io::Result<Listener> {
        Ok(match self {
            Listener::Port(listener) => Listener::Port(listener.try_clone()?),
            Listener::Path(listener) => Listener::Path(listener.try_clone()?),
        })
    }

    /// Its port, where it has one.
    pub fn port(&self) -> Option<u16> {
        match self {
            Listener::Port(listener) => Some(listener.local_addr().ok()?.port()),
            Listener::Path(_) => None,
        }
    }

    /// Whether accepting waits for nothing from now on.
    pub(crate) fn set_nonblocking(&self, nonblocking: bool) -> io::Result<()> {
        match self {
            Listener::Port(listener) => listener.set_nonblocking(nonblocking),
            Listener::Path(listener) => listener.set_nonblocking(nonblocking),
        }
    }

    pub(crate) fn raw_fd(&self) -> RawFd {
        match self {
            Listener::Port(listener) => listener.as_raw_fd(),
            Listener::Path(listener) => listener.as_raw_fd(),
        }
    }

    // The same socket as one that has the calls of a stream.
    fn as_stream(&self) -> io::Result<TcpStream> {
        Ok(match self {
            Listener::Port(listener) => TcpStream::from(OwnedFd::from(listener.try_clone()?)),
            Listener::Path(listener) => TcpStream::from(OwnedFd::from(listener.try_clone()?)),
        })
    }
}

/// Has each wait for a connection end with a fault, now and later. (A listener has no call for this, and a stream has.) When out of
/// descriptors it does nothing: then each thread that waits ends with its next client. Nor does it where each wait has an end anyway, as
/// at a socket that isn't the service's alone.
pub fn close_listener(listener: &Listener) {
    if let Ok(same) = listener.as_stream()
        && let Ok(None) = same.read_timeout()
    {
        let _ = same.shutdown(Shutdown::Both);
    }
}
