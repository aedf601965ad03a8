//! The wait of a service for a file that another process has.
use crate::control::{Control, control_of};
use crate::fault::Fault;
use crate::files::{no_file, open_or_create, see_locked, stands_at};
use crate::level::Level;
use crate::lines::Lines;
use crate::wanted::Answer;
use lazyset_arguments::Service;
use lazyset_set_commands::Status;
use libc::net::{POLLIN, poll};
use libc::types::pollfd;
use lz_disk::{FileDisk, Lock, LockFault};
use std::fs::File;
use std::io::ErrorKind;
use std::net::Net;
use std::os::fd::RawFd;
use std::os::unix::net::UnixStream;
use std::rt::{Env, Files};
use std::sync::Wait;
use std::time::{Clock, Duration};
use std::{io, thread};

// How many milliseconds are between two looks at the file.
const LOOK_MS: u64 = 200;

// The number of standard input, and that of no descriptor, for which the system doesn't wait.
const INPUT: RawFd = 0;

const NOBODY: RawFd = -1;

/// The disk of the file once no other process has that, and the socket on which the service is asked to stop; or how the service ends without.
/// The socket is made before the wait, and taken away where the service ends.
pub fn stand_by<R>(
    rt: &R,
    service: Service<'_>,
) -> Result<(FileDisk, Option<Control>), Result<Status, Fault>>
where
    R: Env + Files<File = File> + Net + Eprint + Wait + Clock + AllocGlobal,
{
    let control = match control_of(rt, service) {
        Ok(control) => control,
        Err(status) => return Err(Ok(status)),
    };
    let ears = Ears {
        control: control.as_ref(),
        input: if service.until_eof { INPUT } else { NOBODY },
    };
    let lines = Lines::of(rt, service.options.loops.is_some());
    match wait_for(rt, service.file, ears, lines) {
        Ok(Waited::Had(disk)) => Ok((disk, control)),
        Ok(Waited::Stopped(stop)) => {
            take_away_control(rt, service);
            drop(control);
            if let Stop::Asked(stream) = stop {
                Answer::Ended.tell(&stream);
            }
            Err(Ok(Status::Done))
        }
        Err(fault) => {
            take_away_control(rt, service);
            Err(Err(fault))
        }
    }
}

/// Takes away the socket on which a service is asked to stop that has one.
pub fn take_away_control<R: Files<File = File>>(rt: &R, service: Service<'_>) {
    if let Some(path) = service.control {
        let _ = rt.remove_file(path);
    }
}

// What has stopped a service while it waited.
#[derive(Drop)]
enum Stop {
    /// Who is to be told that it has ended.
    Asked(UnixStream),
    InputEnded,
}

// What a wait has come to.
#[derive(Drop)]
enum Waited {
    Had(FileDisk),
    Stopped(Stop),
}

// Waits until no other process has the file, which is said once, or the service is to stop.
fn wait_for<R>(rt: &R, file: &str, ears: Ears<'_>, lines: Lines) -> Result<Waited, Fault>
where
    R: Files<File = File> + Eprint + Wait + Clock,
{
    let mut is_said = false;
    for _ in rt.forever() {
        match look_at(rt, file)? {
            Look::Had(disk) => return Ok(Waited::Had(disk)),
            Look::Taken if !is_said => {
                lines.say(rt, file, Level::Notice, "another process has it: waiting");
                is_said = true;
            }
            Look::Taken | Look::Replaced => {}
        }
        if let Some(stop) = ears.hear_until_look(rt) {
            lines.say(rt, file, Level::Notice, "asked to stop");
            lines.say(rt, file, Level::Notice, "stopped: it never had the file");
            return Ok(Waited::Stopped(stop));
        }
    }
    Ok(Waited::Stopped(Stop::InputEnded))
}

// What was found at a path.
#[derive(Drop)]
enum Look {
    /// The file, which this process has to itself now.
    Had(FileDisk),
    /// Another process has the file.
    Taken,
    /// A file that hasn't the path any more, or may not have it: what it would be told is lost at the end.
    Replaced,
}

// Looks whether the file that stands at this path now can be had.
fn look_at<R>(rt: &R, path: &str) -> Result<Look, Fault>
where
    R: Files<File = File> + Eprint,
{
    let disk = open_or_create(rt, path, false)?;
    match disk.lock(Lock::Exclusive) {
        Err(LockFault::Taken) => return Ok(Look::Taken),
        Err(LockFault::NoLocks(error)) => {
            let why = "it can't be locked, so nothing tells whether another process has it";
            return Err(no_file(rt, path, format_args!("{why}: {error}")));
        }
        given => see_locked(rt, path, given)?,
    }
    if stands_at(rt, path, &disk) {
        Ok(Look::Had(disk))
    } else {
        Ok(Look::Replaced)
    }
}

// By what a service that waits is told to stop.
#[derive(Clone, Copy)]
struct Ears<'a> {
    control: Option<&'a Control>,
    input: RawFd,
}

impl Ears<'_> {
    // What is heard before the file is looked at again.
    fn hear_until_look<R: Wait + Clock>(self, rt: &R) -> Option<Stop> {
        let began = rt.monotonic().ok();
        let mut left = Duration::from_millis(LOOK_MS);
        for _ in rt.forever() {
            match self.hear(left) {
                Ok(Some(stop)) => return Some(stop),
                Ok(None) => {}
                Err(_) => thread::sleep(rt, left),
            }
            left = left_since(rt, began);
            if left < Duration::from_millis(1) {
                break;
            }
        }
        None
    }

    // What is heard within this time.
    fn hear(self, within: Duration) -> io::Result<Option<Stop>> {
        let listener = self.control.map_or(NOBODY, Control::number);
        let mut heard = [awaited(listener), awaited(self.input)];
        let milliseconds = i32::try_from(within.subsec_millis()).unwrap_or(0);
        if poll(&mut heard, milliseconds) < 0 {
            return Err(io::Error::from(ErrorKind::Interrupted));
        }
        if heard[0].revents != 0
            && let Some(control) = self.control
            && let Some(stream) = control.hear_one()?
        {
            return Ok(Some(Stop::Asked(stream)));
        }
        if heard[1].revents != 0 && has_input_ended() {
            return Ok(Some(Stop::InputEnded));
        }
        Ok(None)
    }
}

fn awaited(number: RawFd) -> pollfd {
    pollfd {
        fd: number,
        events: POLLIN,
        revents: 0,
    }
}

// Throws away what standard input has. Whether it has ended.
fn has_input_ended() -> bool {
    let mut piece = [0; 512];
    libc::read(INPUT, &mut piece) <= 0
}

// What is left of the time between two looks, of which the first was then. Nothing where the clock doesn't tell.
fn left_since<R: Clock>(rt: &R, began: Option<Duration>) -> Duration {
    match (began, rt.monotonic()) {
        (Some(began), Ok(now)) => {
            Duration::from_millis(LOOK_MS).saturating_sub(now.saturating_sub(began))
        }
        _ => Duration::ZERO,
    }
}
