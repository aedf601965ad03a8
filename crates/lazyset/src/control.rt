//! The socket on which a service is asked to stop, or to clear a room.
use crate::at_path::listen_at;
use crate::log::Stoppable;
use crate::wanted::{Answer, Wanted};
use lazyset_arguments::Service;
use lazyset_set_commands::Status;
use lz_resp::Cleared;
use std::fs::File;
use std::io::ErrorKind;
use std::net::{Net, Shutdown};
use std::os::fd::{AsRawFd, OwnedFd, RawFd};
use std::os::unix::net::{UnixListener, UnixStream};
use std::rt::Files;
use std::sync::Wait;
use std::sync::atomic::{AtomicBool, Ordering};
use std::time::{Clock, Duration};
use std::{io, thread};

// How many may wait to be heard.
const BACKLOG: i32 = 16;

// For how many milliseconds one is heard, and how long it is waited where none can be; and where a room is being cleared.
const PATIENCE_MS: u64 = 1_000;

const CLEARING_MS: u64 = 20;

/// A socket on which the service is asked to stop, or to clear a room.
#[derive(Drop)]
pub struct Control {
    listener: UnixListener,
    is_closed: AtomicBool,
}

impl Control {
    /// Listens at this path, where nobody does, with this mode. What a service that was killed has left there is taken away.
    pub fn listen<R>(rt: &R, path: &str, mode: Option<u32>) -> io::Result<Control>
    where
        R: Files<File = File> + Net,
    {
        Ok(Control {
            listener: listen_at(rt, path, mode, BACKLOG)?,
            is_closed: AtomicBool::new(false),
        })
    }

    /// Hears until it is closed. The service ends once somebody has asked for it; those who did wait for the end. Who has a room cleared is told
    /// what came of it.
    pub fn hear<R, O>(&self, rt: &R, log: &O) -> Vec<UnixStream>
    where
        R: Clock + Wait + AllocGlobal,
        O: Stoppable,
    {
        let mut guests = Guests {
            waiting: Vec::new(rt.alloc()),
            clearing: None,
        };
        for _ in rt.forever() {
            let _ = self.listener.set_nonblocking(guests.clearing.is_some());
            let accepted = self.listener.accept();
            if self.is_closed.load(Ordering::SeqCst) {
                break;
            }
            match accepted {
                Ok((stream, _)) => guests.hear(stream, log),
                Err(error) => thread::sleep(rt, pause_after(&error)),
            }
            guests.tell_cleared(log);
        }
        guests.tell_ended(log);
        guests.waiting
    }

    /// The number of its descriptor, by which somebody is waited for.
    pub fn number(&self) -> RawFd {
        self.listener.as_raw_fd()
    }

    /// Hears who is there before there is a service: where that asks for its end, who waits for that. No room is cleared then.
    pub fn hear_one(&self) -> io::Result<Option<UnixStream>> {
        self.listener.set_nonblocking(true)?;
        let (stream, _) = self.listener.accept()?;
        Ok(
            match Wanted::on(&stream, Duration::from_millis(PATIENCE_MS)) {
                Some(Wanted::Stop) => Some(stream),
                Some(Wanted::Clear(_)) => {
                    Answer::Cleared(Cleared::Stopped(0)).tell(&stream);
                    None
                }
                None => None,
            },
        )
    }

    /// Hears no more.
    pub fn close(&self) {
        self.is_closed.store(true, Ordering::SeqCst);
        if let Ok(same) = self.listener.try_clone() {
            let _ = UnixStream::from(OwnedFd::from(same)).shutdown(Shutdown::Both);
        }
    }
}

// How long it is waited after nobody could be heard.
fn pause_after(error: &io::Error) -> Duration {
    Duration::from_millis(if error.kind() == ErrorKind::WouldBlock {
        CLEARING_MS
    } else {
        PATIENCE_MS
    })
}

// Those who have asked for something, and wait for it.
#[derive(Drop)]
struct Guests {
    // for the end of the service
    waiting: Vec<UnixStream>,
    // for a room to be cleared
    clearing: Option<UnixStream>,
}

impl Guests {
    // Hears what is wanted on this connection.
    fn hear<O: Stoppable>(&mut self, stream: UnixStream, log: &O) {
        match Wanted::on(&stream, Duration::from_millis(PATIENCE_MS)) {
            Some(Wanted::Stop) => {
                log.stop();
                let _ = self.waiting.push(stream);
            }
            Some(Wanted::Clear(room)) => self.clear(room, stream, log),
            None => {}
        }
    }

    // Has a room cleared, where that can be.
    fn clear<O: Stoppable>(&mut self, room: u8, stream: UnixStream, log: &O) {
        let clearings = log.clearings();
        if clearings.is_closed() {
            Answer::Never.tell(&stream);
        } else if clearings.ask(room) {
            self.clearing = Some(stream);
        } else {
            Answer::Cleared(Cleared::Busy).tell(&stream);
        }
    }

    // Tells who has a room cleared what came of it, once that is known.
    fn tell_cleared<O: Stoppable>(&mut self, log: &O) {
        if let Some(stream) = &self.clearing
            && let Some(cleared) = log.clearings().outcome()
        {
            let cleared = if log.may_tell() {
                cleared
            } else {
                Cleared::Stopped(0)
            };
            Answer::Cleared(cleared).tell(stream);
            self.clearing = None;
        }
    }

    // The same once the service has ended.
    fn tell_ended<O: Stoppable>(&mut self, log: &O) {
        self.tell_cleared(log);
        if let Some(stream) = self.clearing.take() {
            Answer::Cleared(Cleared::Stopped(0)).tell(&stream);
        }
    }
}

/// The socket on which the service is asked to stop, where it has one. It doesn't serve without.
pub fn control_of<R>(rt: &R, service: Service<'_>) -> Result<Option<Control>, Status>
where
    R: Files<File = File> + Net + Eprint,
{
    let Some(path) = service.control else {
        return Ok(None);
    };
    match Control::listen(rt, path, service.mode) {
        Ok(control) => Ok(Some(control)),
        Err(error) => {
            say_no_control(rt, service.file, path, service.chosen.control, &error);
            Err(Status::Failed)
        }
    }
}

// Says why that socket can't be had, and where its path was chosen the word that mends it.
fn say_no_control<R: Eprint>(rt: &R, file: &str, path: &str, is_chosen: bool, error: &io::Error) {
    let _ = if !is_chosen {
        eprintln!(rt; "lazyset: serve {file}: --control {path}: {error}")
    } else if error.kind() == ErrorKind::InvalidInput {
        eprintln!(rt;
            "lazyset: serve {file}: {path} is too long for a socket: name a shorter path by --control"
        )
    } else {
        eprintln!(rt;
            "lazyset: serve {file}: no socket at {path}: {error}: name another path by --control"
        )
    };
}
