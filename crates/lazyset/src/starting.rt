//! The start of a service: its file is opened, and what its command line doesn't name is chosen.
ghost use Rattle.std.specs.Prelude.{◌≤◌, IfOk};
ghost use Rattle.lz_slot.specs.Limits.{most_buckets};
ghost use Rattle.lazyset_set_commands.specs.Services.{IsServable};

use crate::control::Control;
use crate::descriptors::connections_allowed;
use crate::fault::Fault;
use crate::files::{open_alone, ready_for};
use crate::forgetting::forgetting_of;
use crate::lines::Lines;
use crate::rewriting::{Held, write_anew};
use crate::secrets::secret_of;
use crate::service::{At, serve};
use crate::standby::{stand_by, take_away_control};
use lazyset_arguments::{Request, Service};
use lazyset_set_commands::{ServeOptions, Status};
use lz_disk::FileDisk;
use lz_resp::{Naming, Secret};
use lz_serve::{Language, Loops};
use lz_slot::Header;
use std::fs::File;
use std::io::Write;
use std::net::{Net, TcpListener, TcpStream};
use std::rt::{Env, Files};
use std::sync::Wait;
use std::thread::Threads;
use std::time::Clock;

// What is said of a service that forgets and is to end after so many sessions.
const NO_SESSIONS: &str =
    "error: the argument '--sessions <N>' cannot be used with '--forget <SECONDS>'\n\nFor more information, try '--help'.\n";

/// Opens the file that is to be served, and serves its set.
pub fn serve_file<R, W>(rt: &R, writer: &mut W, service: Service<'_>) -> Result<Status, Fault>
where
    R: Env + Files<File = File> + Eprint + AllocGlobal,
    R: Net<Listener = TcpListener, Stream = TcpStream> + Threads + Wait + Clock + Sync,
    W: Write + Drop,
    requires { IsServable service.options }
{
    see_sessions(rt, service)?;
    let at = At::of(rt, service);
    let secret = secret_of(rt, Request::Serve(service), service.secret)?;
    let file = service.file;
    let beside = format!(in rt.alloc(); "{file}.control")?;
    let control = if service.chosen.control {
        Some(beside.as_str())
    } else {
        service.control
    };
    let service = Service { control, ..service };
    let (held, bound) = match taken(rt, writer, service) {
        Ok(taken) => taken,
        Err(ended) => return ended,
    };
    let Held { disk, old: _old } = held;
    let mut disk = disk;
    match options_for(rt, writer, &mut disk, service, secret) {
        Ok(options) => {
            let service = Service { options, ..service };
            serve(rt, &mut *writer, disk, service, at, bound)
        }
        Err(ended) => {
            if bound.is_some() {
                take_away_control(rt, service);
            }
            ended
        }
    }
}

// The keeper of the epochs is a session that has no end.
fn see_sessions<R: AllocGlobal>(rt: &R, service: Service<'_>) -> Result<(), Fault> {
    if service.forgets.is_some() && service.options.sessions > 0 {
        let text = format!(in rt.alloc(); "{NO_SESSIONS}")?;
        return Err(Fault::NotUnderstood(text));
    }
    Ok(())
}

// The file, and the socket on which the service is asked to stop, where it has waited for the file; or how the service ends without.
fn taken<R, W>(
    rt: &R,
    writer: &mut W,
    service: Service<'_>,
) -> Result<(Held, Option<Control>), Result<Status, Fault>>
where
    R: Env + Files<File = File> + Net + Eprint + Wait + Clock + AllocGlobal,
    W: Write + Drop,
{
    if service.stands_by {
        let (disk, control) = stand_by(rt, service)?;
        let held = anew(rt, writer, disk, service);
        if held.is_err() {
            take_away_control(rt, service);
        }
        return Ok((held?, control));
    }
    match open_alone(rt, service.file, service.no_lock) {
        Ok(disk) => Ok((Held { disk, old: None }, None)),
        Err(fault) => Err(Err(fault)),
    }
}

// The file for which a service has waited, written anew where that is wanted.
fn anew<R, W>(
    rt: &R,
    writer: &mut W,
    disk: FileDisk,
    service: Service<'_>,
) -> Result<Held, Result<Status, Fault>>
where
    R: Env + Files<File = File> + Eprint + Clock + AllocGlobal,
    W: Write + Drop,
{
    if !service.rewrites {
        return Ok(Held { disk, old: None });
    }
    let lines = Lines::of(rt, service.options.loops.is_some());
    write_anew(rt, writer, service.file, disk, lines)
}

// How the set on this disk is served, with what its command line doesn't name; or how the service ends without.
fn options_for<R, W>(
    rt: &R,
    writer: &mut W,
    disk: &mut FileDisk,
    service: Service<'_>,
    secret: Option<&'static Secret>,
) -> Result<ServeOptions, Result<Status, Fault>>
where
    R: Files<File = File> + Eprint + Clock + AllocGlobal,
    W: Write + Drop,
    requires { IsServable service.options }
    ensures { IfOk result IsServable }
{
    let Service {
        file,
        options,
        chosen,
        ..
    } = service;
    let header = match ready_for(rt, file, disk, options.buckets) {
        Ok(header) => header,
        Err(fault) => return Err(Err(fault)),
    };
    let forgetting = match service.forgets {
        Some(period) => match forgetting_of(rt.alloc(), writer, disk, header, period, secret) {
            Ok(shared) => Some(shared),
            Err(status) => return Err(Ok(status)),
        },
        None => None,
    };
    let buckets = if chosen.buckets {
        buckets_for(header)
    } else {
        options.buckets
    };
    let loops = if chosen.connections {
        options.loops.map(with_all_connections)
    } else {
        options.loops
    };
    Ok(ServeOptions {
        buckets,
        loops: loops.map(|loops| Loops {
            forgetting,
            ..with_secret(loops, secret)
        }),
        ..options
    })
}

// As many buckets as the file has slots, or as its format allows. One where its head can't be read: its open refuses it.
#[tactic(auto, using(crate::proofs::Buckets::buckets_of_format))]
fn buckets_for(header: Option<Header>) -> usize
    ensures { (1 ≤ result) × (result ≤ most_buckets) }
{
    let Some(header) = header else {
        return 1;
    };
    let most = header.format.most_buckets();
    let slots = usize::try_from(header.slots).unwrap_or(most);
    slots.clamp(1, most)
}

// The same loops, whose clients' texts are hashed after this secret, if there is one.
fn with_secret(loops: Loops, secret: Option<&'static Secret>) -> Loops {
    let Some(secret) = secret else {
        return loops;
    };
    Loops {
        language: Language::Frames(Naming::Texts(Some(secret))),
        ..loops
    }
}

// The same loops, with as many connections as descriptors allow.
fn with_all_connections(loops: Loops) -> Loops {
    Loops {
        connections: connections_allowed(loops.count),
        ..loops
    }
}
