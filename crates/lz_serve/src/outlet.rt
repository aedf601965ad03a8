//! The one place at which something is sent on the system's sockets.
ghost use Rattle.std.specs.Prelude.{◌≡◌, ◌≤◌, IfOk, IfSome, IsSomeAnd, length};

use crate::lease::{Lease, Leave, Tether};
use mio::net::TcpStream;
use std::io;
use std::io::{Read, Write};
use std::net::Shutdown;
use std::sync::Wait;

/// A system's socket, on which nothing is sent but by its service's lease, if there is one.
#[derive(Drop)]
pub(crate) struct Outlet<'a, R, T: Tether> {
    rt: &'a R,
    stream: TcpStream,
    lease: &'a Lease<T>,
}

impl<'a, R, T: Tether> Outlet<'a, R, T> {
    pub(crate) fn new(rt: &'a R, stream: TcpStream, lease: &'a Lease<T>) -> Outlet<'a, R, T> {
        Outlet { rt, stream, lease }
    }

    /// Reads what has come.
    pub(crate) fn read(&mut self, buffer: &mut [u8]) -> io::Result<usize>
        ensures length { length buffer.new ≡ length buffer.old }
        ensures bound { IfOk result (λ count. count ≤ length buffer.new) }
    {
        self.stream.read(buffer)
    }

    /// Sends a beginning of a text by this leave, which is used up.
    pub(crate) fn send(&mut self, text: &[u8], leave: Leave<T>) -> io::Result<usize>
        requires leave { IfSome self.old.lease.now.hold (λ hold. IsSomeAnd leave.held (λ held. held.millis ≡ hold.millis)) }
        ensures bound { IfOk result (λ count. count ≤ length text.now) }
    {
        let Leave { held: _held } = leave;
        self.stream.write(text)
    }

    /// Says that nothing more will be sent.
    pub(crate) fn shut(&self) {
        let _ = self.stream.shutdown(Shutdown::Write);
    }
}

impl<R: Wait, T: Tether> Outlet<'_, R, T> {
    /// The leave to send once. There is none where the lease is lost. It may make a device call.
    pub(crate) fn leave(&self) -> Option<Leave<T>>
        ensures { IfSome result (λ leave. IfSome self.now.lease.now.hold (λ hold. IsSomeAnd leave.held (λ held. held.millis ≡ hold.millis))) }
    {
        self.lease.leave(self.rt)
    }
}
