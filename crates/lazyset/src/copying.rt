//! The command that makes a file of the keys of a running service.
ghost use Rattle.std.specs.Prelude.{◌≡◌, IfSome};
ghost use Rattle.lz_slot.specs.Limits.{last_room};
ghost use Rattle.lz_slot.specs.Rooms.{last_room_of};

use crate::asked::Asked;
use crate::before::Before;
use crate::beside::{Name, Replaced, create_beside};
use crate::fault::Fault;
use crate::files::{is_absent, no_file, say_cause};
use crate::formats::{format_for, format_numbered, kept_format};
use crate::making::Making;
use crate::over_disk::copy_over;
use crate::share::{Share, is_terminal};
use lazyset_arguments::{New, Wish};
use lazyset_set_commands::{Status, ask_shape_on, tell};
use lz_slot::{Format, read_number};
use std::fs::File;
use std::io;
use std::io::{Read, Write};
use std::net::{Net, TcpListener, TcpStream};
use std::os::unix::net::UnixStream;
use std::rt::Files;
use std::time::{Clock, Duration};

// For how many milliseconds a service may be silent.
const PATIENCE_MS: u64 = 60_000;

const MOST_PORT: u64 = 65_535;

// A frame of no words, which asks for nothing: by it a service of both protocols knows which one is spoken.
const OPENING: &[u8] = b"*0\r\n";

// What is said where a copy is whole and can't be put in its place.
const NOT_PUT: &[u8] = b"refused 3\n";

/// Makes a file of the keys that the service at this address tells. Nothing is made where nobody listens there.
pub fn copy<R, W>(rt: &R, writer: &mut W, wish: Wish<'_>) -> Result<Status, Fault>
where
    R: Files<File = File> + Eprint + Clock + AllocGlobal,
    R: Net<Listener = TcpListener, Stream = TcpStream>,
    W: Write + Drop,
    requires { IfSome wish.format (λ f. last_room_of f ≡ last_room) }
{
    let address = wish.address;
    let patience = Duration::from_millis(PATIENCE_MS);
    if is_path(address) {
        let stream = match UnixStream::connect(rt, address) {
            Ok(stream) => stream,
            Err(error) => return Err(no_file(rt, address, error)),
        };
        let _ = stream.set_read_timeout(Some(patience));
        let asker = asked(rt, address, &stream);
        return copy_from(rt, &mut &stream, asker, writer, wish);
    }
    let stream = match connect(rt, address)? {
        Ok(stream) => stream,
        Err(error) => return Err(no_file(rt, address, error)),
    };
    let _ = stream.set_read_timeout(Some(patience));
    let asker = asked(rt, address, &stream);
    copy_from(rt, &mut &stream, asker, writer, wish)
}

// The connection to the service at this address, of which it is said how far it was asked.
fn asked<'a, 'b, R, A>(rt: &'a R, address: &'b str, asker: A) -> Asked<'a, 'b, R, A>
where
    R: Files<File = File> + Eprint + Clock,
    A: Write,
{
    Asked::new(asker, Share::new(rt, address, 0, is_terminal(rt)))
}

// Whether an address is a path: a number is a port, and so is what follows a host's name and a colon.
fn is_path(address: &str) -> bool {
    match address.rsplit_once(':') {
        Some((host, port)) => !is_port(port) || host.contains('/'),
        None => !is_port(address),
    }
}

fn is_port(word: &str) -> bool {
    read_number(word.as_bytes(), 1, MOST_PORT).is_some()
}

// A connection to the port at this address.
fn connect<R>(rt: &R, address: &str) -> Result<io::Result<TcpStream>, Fault>
where
    R: Net<Listener = TcpListener, Stream = TcpStream> + AllocGlobal,
{
    if is_port(address) {
        let here = format!(in rt.alloc(); "127.0.0.1:{address}")?;
        return Ok(TcpStream::connect(rt, here.as_str()));
    }
    Ok(TcpStream::connect(rt, address))
}

// Makes the file of what is told over a connection. Where no slots are named the service is asked for its own; where it doesn't tell them,
// which was said, the command ends so.
fn copy_from<R, I, A, W>(
    rt: &R,
    reader: &mut I,
    asker: Asked<'_, '_, R, A>,
    writer: &mut W,
    wish: Wish<'_>,
) -> Result<Status, Fault>
where
    R: Files<File = File> + Eprint + Clock + AllocGlobal,
    I: Read,
    A: Write + Drop,
    W: Write + Drop,
    requires { IfSome wish.format (λ f. last_room_of f ≡ last_room) }
{
    let mut asker = asker;
    // Where it can't be sent the first question can't be either, which is told.
    let _ = asker.write_all(OPENING);
    let (slots, told) = match wish.slots {
        Some(slots) => (slots, None),
        None => match ask_shape_on(rt.alloc(), reader, &mut asker, writer) {
            Ok(shape) => (shape.slots, format_numbered(shape.format)),
            Err(status) => return Ok(status),
        },
    };
    let new = New {
        file: wish.file,
        slots,
        format: format_of(wish.format, told, slots),
    };
    asker.of_slots(slots);
    if wish.replaces && !is_absent(rt, wish.file) {
        return replace(rt, reader, &mut asker, writer, new);
    }
    let (making, disk) = Making::begin_free(rt, wish.file)?;
    let (status, disk) = copy_over(rt, reader, &mut asker, writer, new, disk);
    asker.end();
    Ok(making.end(rt, &disk, status))
}

// The format of a copy with so many slots: the one that was named, or the service's, where that is told and has room.
fn format_of(named: Option<Format>, told: Option<Format>, slots: u64) -> Format
    requires { IfSome named (λ f. last_room_of f ≡ last_room) }
    ensures { last_room_of result ≡ last_room }
{
    match (named, told) {
        (Some(format), _) => format,
        (None, Some(format)) => kept_format(format, slots),
        (None, None) => format_for(slots),
    }
}

// Makes the copy beside the set at this path, under locks of both, and gives it the set's name once it is whole, durably: each moment
// leaves one of the two there. Where a link was named, the file itself is replaced.
fn replace<R, I, A, W>(
    rt: &R,
    reader: &mut I,
    asker: &mut Asked<'_, '_, R, A>,
    writer: &mut W,
    set: New<'_>,
) -> Result<Status, Fault>
where
    R: Files<File = File> + Eprint + Clock + AllocGlobal,
    I: Read,
    A: Write,
    W: Write + Drop,
    requires { last_room_of set.format ≡ last_room }
{
    let Replaced { path, facts, disk } = Replaced::open(rt, set.file)?;
    let path = path.as_str();
    let mut old = disk;
    Before::on(&mut old).see_free(rt, set.file)?;
    let beside = format!(in rt.alloc(); "{path}.copy")?;
    let beside = beside.as_str();
    let mut new = create_beside(rt, beside, &facts)?;
    new.gather(rt.alloc());
    // What is said of the copy waits for its name.
    let mut told: Vec<u8> = Vec::new(rt.alloc());
    let made = New {
        file: beside,
        ..set
    };
    let (status, new) = copy_over(rt, reader, asker, &mut told, made, new);
    asker.end();
    say_cause(rt, beside, new.cause());
    let mut name = Name::new(rt, path, beside);
    let is_put = status != Status::Done || name.give().is_ok();
    name.end();
    if is_put {
        Ok(tell(writer, status, &told))
    } else {
        Ok(tell(writer, Status::Failed, NOT_PUT))
    }
}
