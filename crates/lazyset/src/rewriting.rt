//! A file that is written anew before it is served, so that the copies of a replicated volume agree.
use crate::beside::Replaced;
use crate::fault::Fault;
use crate::files::{header_on, say_cause};
use crate::growing::{Put, put_anew, roomy_format};
use crate::level::Level;
use crate::lines::Lines;
use crate::over_disk::rewrite_over;
use lazyset_file_commands::{RewriteFault, refuse};
use lazyset_set_commands::Status;
use lz_disk::FileDisk;
use lz_vault::OpenFault;
use std::fs::File;
use std::io::Write;
use std::rt::Files;
use std::time::Clock;

// How the line of a growth begins whose old file is damaged or couldn't be read, and what it is where there was no memory.
const REFUSED_OLD: &[u8] = b"refused old ";

const NO_ROOM: &[u8] = b"refused old 8\n";

/// A file that this process has to itself.
#[derive(Drop)]
pub struct Held {
    pub disk: FileDisk,
    /// The file whose name it took. Whoever still finds that one there, as over a network, can't lock it.
    pub old: Option<FileDisk>,
}

/// Writes the file on this disk anew: in format 4 in its own place, and else into a new one, which takes its name. In format 1 the new
/// one is of format 2. Where it can't be done that is told as an open tells that the device failed. A damaged file stays as it is,
/// which its open tells.
pub fn write_anew<R, W>(
    rt: &R,
    writer: &mut W,
    file: &str,
    disk: FileDisk,
    lines: Lines,
) -> Result<Held, Result<Status, Fault>>
where
    R: Files<File = File> + Eprint + Clock + AllocGlobal,
    W: Write + Drop,
{
    let (answer, disk) = rewrite_over(rt, file, disk);
    match answer {
        Ok(slots) => {
            say_anew(rt, file, slots, lines);
            return Ok(Held { disk, old: None });
        }
        Err(RewriteFault::Device) => {
            return Err(Ok(refuse_failed(rt, writer, file, &disk, lines)));
        }
        Err(RewriteFault::Format) => {}
    }
    let mut disk = disk;
    let Some(header) = header_on(&mut disk) else {
        if disk.cause().is_none() {
            return Ok(Held { disk, old: None });
        }
        return Err(Ok(refuse_failed(rt, writer, file, &disk, lines)));
    };
    let slots = header.slots;
    let format = roomy_format(rt, file, &mut disk, slots);
    let mut told = Vec::new(rt.alloc());
    let put = match Replaced::of(rt, file, disk) {
        Ok(replaced) => put_anew(rt, &mut told, file, replaced, slots, format),
        Err(fault) => Err(fault),
    };
    let put = match put {
        Ok(put) => put,
        Err(fault) => return Err(Err(fault)),
    };
    match held_by(put, told.as_slice()) {
        Ok(held) => {
            if held.old.is_some() {
                say_anew(rt, file, slots, lines);
            }
            Ok(held)
        }
        Err(fault) => Err(Ok(refuse_anew(rt, writer, file, fault, lines))),
    }
}

// The file that is to be served after a growth that has told this: the new one, whose writes don't wait any more, or the old one where that is
// damaged.
fn held_by(put: Put, told: &[u8]) -> Result<Held, OpenFault> {
    let Put { status, old, new } = put;
    match status {
        Status::Done => Ok(Held {
            disk: FileDisk::over(new.into_file()),
            old: Some(old),
        }),
        Status::Refused if told.starts_with(REFUSED_OLD) => Ok(Held {
            disk: old,
            old: None,
        }),
        _ if told == NO_ROOM => Err(OpenFault::Memory),
        _ => Err(OpenFault::Device),
    }
}

fn say_anew<R: Eprint + Clock>(rt: &R, file: &str, slots: u64, lines: Lines) {
    lines.say(
        rt,
        file,
        Level::Info,
        format_args!("written anew: {slots} slots"),
    );
}

// Tells that its disk failed.
fn refuse_failed<R, W>(rt: &R, writer: &mut W, file: &str, disk: &FileDisk, lines: Lines) -> Status
where
    R: Eprint + Clock,
    W: Write + Drop,
{
    say_cause(rt, file, disk.cause());
    refuse_anew(rt, writer, file, OpenFault::Device, lines)
}

// Tells that it couldn't be written anew.
fn refuse_anew<R, W>(rt: &R, writer: &mut W, file: &str, fault: OpenFault, lines: Lines) -> Status
where
    R: Eprint + Clock,
    W: Write + Drop,
{
    lines.say(rt, file, Level::Error, "it couldn't be written anew");
    refuse(writer, fault)
}
