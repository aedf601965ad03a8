//! The end of standard input, with which a service ends that is somebody's child.
use mio::unix::SourceFd;
use mio::{Events, Interest, Poll, Token};
use std::io;
use std::io::ErrorKind;
use std::net::Net;
use std::os::fd::RawFd;
use std::sync::Wait;
use std::sync::atomic::{AtomicBool, Ordering};
use std::time::Duration;

// The number of standard input.
const INPUT: RawFd = 0;

const TOKEN: Token = Token(0);

// For how many seconds it is waited before it is seen whether that is still of use.
const PATIENCE_S: u64 = 1;

/// Reads standard input and throws it away, until it has ended, or nobody wants to know any more. Whether it has ended.
pub fn has_ended<R: Net + Wait + AllocGlobal>(rt: &R, is_over: &AtomicBool) -> bool {
    let mut watch = Watch::new(rt).ok();
    let mut piece = [0; 512];
    for _ in rt.forever() {
        if is_over.load(Ordering::SeqCst) {
            return false;
        }
        if let Some(watch) = &mut watch
            && !watch.may_read()
        {
            continue;
        }
        if libc::read(INPUT, &mut piece) <= 0 {
            return true;
        }
    }
    false
}

// Waits for standard input. A regular file can't be waited for, and needn't be.
#[derive(Drop)]
struct Watch {
    poll: Poll,
    events: Events,
}

impl Watch {
    fn new<R: Net + AllocGlobal>(rt: &R) -> io::Result<Watch> {
        let poll = Poll::new(rt)?;
        poll.registry()
            .register(&mut SourceFd(&INPUT), TOKEN, Interest::READABLE)?;
        match Events::with_capacity(rt.alloc(), 1) {
            Ok(events) => Ok(Watch { poll, events }),
            Err(_) => Err(io::Error::from(ErrorKind::OutOfMemory)),
        }
    }

    // Whether a read wouldn't wait.
    fn may_read(&mut self) -> bool {
        // The system tells of a change once, unless it is asked again.
        let again = self
            .poll
            .registry()
            .reregister(&mut SourceFd(&INPUT), TOKEN, Interest::READABLE);
        let polled = self
            .poll
            .poll(&mut self.events, Some(Duration::from_secs(PATIENCE_S)));
        again.is_ok() && polled.is_ok() && !self.events.is_empty()
    }
}
